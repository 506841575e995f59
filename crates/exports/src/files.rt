// The calls on stored files.
ghost use Rattle.std.specs.Prelude.{◌≡◌, Result, ℕ, ◌^◌};
ghost use Rattle.coins.specs.Totals as totals;
ghost use Rattle.report.specs.Entry as entries;
ghost use Rattle.delivery.specs.Message as making;
ghost use Rattle.proximity.specs.Dim.{S};
ghost use Rattle.stored.specs.Bytes.{packed_size};
ghost use Rattle.stored.specs.File.{word_start, proof_start, form_in, degree_in, dim_in, narrow_in};
ghost use Rattle.stored.specs.declared.Form.TheVariants.{One, Two};
ghost use Rattle.filing.specs.Writer.{Wrote};
ghost use Rattle.refusals.specs.Refusal.{answer_of};
ghost use Rattle.refusals.specs.declared.Refusal.{Refusal};
ghost use Rattle.exports.specs.Codes.{count_code};
ghost use Rattle.exports.specs.Files.{one_of, refused_one, off_code, total_of, entry_of, byte_of, PartByte};

use super::{answer_code, count_code};
use coins::{Counts, Sweep};
use refusals::Refusal;
use report::Entry;

#[unsafe(no_mangle)]
pub extern "C" fn proximity_write(
    modulus: u32,
    basis: &[u16],
    word: &[u16],
    proof: &[u16],
    out: &mut [u8],
) -> u32
    ensures { (o : Result (Unit {0}) Refusal) × Wrote One modulus basis.now 0 word.now proof.now out.old out.new o × (result ≡ answer_of o) }
{
    answer_code(filing::write(modulus, basis, word, proof, out))
}

#[unsafe(no_mangle)]
pub extern "C" fn proximity_write_form_two(
    modulus: u32,
    basis: &[u16],
    shift: u16,
    word: &[u16],
    proof: &[u16],
    out: &mut [u8],
) -> u32
    ensures { (o : Result (Unit {0}) Refusal) × Wrote Two modulus basis.now shift word.now proof.now out.old out.new o × (result ≡ answer_of o) }
{
    answer_code(filing::write_form_two(modulus, basis, shift, word, proof, out))
}

#[unsafe(no_mangle)]
pub extern "C" fn proximity_make(message: &[u8], out: &mut [u8]) -> u32
    ensures { (m : Result ℕ Refusal) × making.Told message.now out.old out.new m × (result ≡ count_code m) }
{
    count_code(delivery::make(message, out))
}

// One of six numbers by its place: 0, what all coins tell, and past them the last.
fn one_of(which: u32, sweep: Sweep, last: usize) -> u64
    ensures { result ≡ one_of which sweep last }
{
    match which {
        0 => 0,
        1 => sweep.k as u64,
        2 => sweep.coins,
        3 => sweep.rejects,
        4 => sweep.most as u64,
        _ => last as u64,
    }
}

// The number of a refusal at place 0, and zeros.
fn refused_one(which: u32, e: Refusal) -> u64
    ensures { result ≡ refused_one which e }
{
    if which == 0 {
        return u64::from(u8::from(e));
    }
    0
}

fn off_code(off: Option<usize>) -> usize
    ensures { result ≡ off_code off }
{
    match off {
        Some(n) => n,
        None => 65536,
    }
}

#[unsafe(no_mangle)]
pub extern "C" fn proximity_total(file: &[u8], which: u32) -> u64
    ensures { (c : Result Counts Refusal) × totals.Told file.now c × (result ≡ total_of c which) }
{
    match coins::count(file) {
        Ok(c) => one_of(which, c.sweep, off_code(c.off)),
        Err(e) => refused_one(which, e),
    }
}

#[unsafe(no_mangle)]
pub extern "C" fn proximity_entry(bytes: &[u8], which: u32) -> u64
    ensures { (e : Result Entry Refusal) × entries.Told bytes.now e × (result ≡ entry_of e which) }
{
    match report::front(bytes) {
        Ok(e) => one_of(which, e.sweep, e.end),
        Err(e) => refused_one(which, e),
    }
}

// A byte of a part, and 256 past its end; where the file is refused, 256 and the number.
fn byte_at(part: Result<&[u8], Refusal>, at: u64) -> u32
    ensures { result ≡ byte_of part.entry at }
{
    match part {
        Ok(bytes) => {
            if at < bytes.len() as u64 {
                return u32::from(bytes[at as usize]);
            }
            256
        }
        Err(e) => 256 + u32::from(u8::from(e)),
    }
}

// Byte `at` of the word's part of a stored file; past its end 256 and the number of the refusal.
#[unsafe(no_mangle)]
pub extern "C" fn proximity_word_byte(file: &[u8], at: u64) -> u32
    ensures { PartByte file.now (word_start (form_in file.now) (dim_in file.now)) (packed_size (narrow_in file.now) (2 ^ dim_in file.now)) at result }
{
    byte_at(stored::word_part(file), at)
}

// The same of the proof's part.
#[unsafe(no_mangle)]
pub extern "C" fn proximity_proof_byte(file: &[u8], at: u64) -> u32
    ensures { PartByte file.now (proof_start (form_in file.now) (degree_in file.now) (dim_in file.now)) (packed_size (narrow_in file.now) (S (dim_in file.now))) at result }
{
    byte_at(stored::proof_part(file), at)
}
