// The checks of the records, front to back.
ghost use Rattle.std.specs.Prelude.{◌≡◌, false, ◌+◌, ◌*◌, ◌^◌, ◌≤◌, ◌<◌, length, take};
ghost use Rattle.lists.specs.All.{Below};
ghost use Rattle.lists.specs.Answers.{Answers};
ghost use Rattle.lists.specs.Decides.{Decides};
ghost use Rattle.refusals.specs.Gives.{Gives};
ghost use Rattle.refusals.specs.Refusal.{answer_of};
ghost use Rattle.field.specs.Binary.{degree};
ghost use Rattle.field.specs.Checks.{FieldOf};
ghost use Rattle.field.specs.Products.{Sized};
ghost use Rattle.space.specs.Setting.{SettledBy};
ghost use Rattle.space.specs.Sizes.{max_dim};
ghost use Rattle.stored.specs.Bytes.{packed_size, numbers_at};
ghost use Rattle.stored.specs.File.{word_record_at, form_in, modulus_in, dim_in, basis_in, shift_in};
ghost use Rattle.stored.specs.Reader.{head_checks, setting_checks, record_checks, symbol_checks};

use super::{Form, bytes, forms};
use field::{Field, modulus};
use proximity::tables;
use refusals::Refusal;
use space::Setting;

// The checks of a setting record up to the presence of its basis and its shift, and the field.
fn check_head(file: &[u8]) -> Result<Field, Refusal>
    ensures { Gives (head_checks file.now) (FieldOf (modulus_in file.now)) result }
{
    let form = forms::form_of(file);
    if !bytes::opens(file, 0, 7, 0x53, forms::setting_mark(form)) {
        return Err(Refusal::NoRecord);
    }
    let f = modulus::check(bytes::four_at(file, 2))?;
    let k = file[6] as usize;
    if k < 3 || space::MAX < k {
        return Err(Refusal::BasisLength);
    }
    if file.len() < forms::setting_size(form, k) {
        return Err(Refusal::NoRecord);
    }
    Ok(f)
}

// The first k two-byte numbers from index 7 on, with zeros past them.
pub fn basis_at(file: &[u8], k: usize) -> [u16; 16]
    requires { (k ≤ max_dim) × (7 + 2 * k ≤ length file.now) }
    ensures { (length result ≡ 16) × (take k result ≡ numbers_at false file.now 7 k) }
{
    let mut out = [0u16; 16];
    bytes::numbers_at(file, 7, false, &mut out[..k]);
    out
}

// The shift, which stands after the basis in form 2; 0 in form 1.
fn shift_of(file: &[u8]) -> u16
    requires { (7 ≤ length file.now) × (word_record_at (form_in file.now) (dim_in file.now) ≤ length file.now) }
    ensures { result ≡ shift_in file.now }
{
    match forms::form_of(file) {
        Form::One => 0,
        Form::Two => bytes::two_at(file, 7 + 2 * (file[6] as usize)),
    }
}

// The setting of a setting record.
pub fn setting_of(file: &[u8]) -> Result<Setting, Refusal>
    ensures { SettledBy (setting_checks file.now) (modulus_in file.now) (basis_in file.now) (shift_in file.now) result }
{
    let f = check_head(file)?;
    let k = file[6] as usize;
    let basis = basis_at(file, k);
    space::check_basis(f, &basis[..k], shift_of(file))
}

// Whether count symbols that stand at index at are all below 2^l.
fn all_fit(f: Field, file: &[u8], at: usize, narrow: bool, count: usize) -> bool
    requires { Sized f × (at + packed_size narrow count ≤ length file.now) }
    ensures { Decides result (Below (2 ^ degree f.modulus) (numbers_at narrow file.now at count)) }
{
    modulus::is_symbol(f, bytes::largest(file, at, narrow, count))
}

// The checks of a record of count symbols at index at.
pub fn check_record(
    f: Field,
    file: &[u8],
    at: usize,
    first: u8,
    second: u8,
    narrow: bool,
    count: usize,
) -> Result<(), Refusal>
    requires { Sized f × (at ≤ length file.now) × (count < 4294967296) }
    ensures { Answers (record_checks narrow file.now at first second count (degree f.modulus)) (answer_of result) }
{
    if !bytes::opens(file, at, 6, first, second) {
        return Err(Refusal::NoRecord);
    }
    if bytes::four_at(file, at + 2) as usize != count {
        return Err(Refusal::WrongCount);
    }
    let start = at + 6;
    if file.len() - start < forms::packed_size(narrow, count) {
        return Err(Refusal::NoRecord);
    }
    if !all_fit(f, file, start, narrow, count) {
        return Err(Refusal::NoSymbol);
    }
    Ok(())
}

// The checks of the word's record and the proof's.
pub fn check_symbols(f: Field, file: &[u8], form: Form, k: usize) -> Result<(), Refusal>
    requires { Sized f × (k ≤ max_dim) × (word_record_at form k ≤ length file.now) }
    ensures { Answers (symbol_checks form file.now k (degree f.modulus)) (answer_of result) }
{
    let n = 1usize << k;
    let p = forms::layout(form, f, k);
    let word = p.word - 6;
    check_record(f, file, word, 0x57, forms::word_mark(form), p.narrow, n)?;
    let proof = p.proof - 6;
    let s = tables::proof_length(k);
    check_record(f, file, proof, 0x50, forms::proof_mark(form), p.narrow, s)
}
