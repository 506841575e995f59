// The host kit: the checker over stored files and their converter, for programs in C. A file is lent as its bytes; an
// answer is a number: definitions in specs/Answer.antt say which. include/proximity.h declares the
// calls.
#![tactic(auto)]

pub mod degree;

ghost use Rattle.std.specs.Prelude.{◌≡◌};
ghost use Rattle.lists.specs.Answers.{Answers};
ghost use Rattle.refusals.specs.Refusal.{number};
ghost use Rattle.stored.specs.Reader.{file_checks};
ghost use Rattle.host.specs.Answer.{CoinBits, HostAnswer, HostConverted, HostLength};

use proximity::tables;
use refusals::Refusal;
use verifier::Verdict;

// The number of a refusal, as C has it.
fn code(e: Refusal) -> u32
    ensures { result ≡ number e }
{
    u32::from(u8::from(e))
}

// The number of the first check that refuses the file, or 0.
//
// Ruled out: 0 for a file with a byte after its last record; a number for an accepted file.
pub fn proximity_file_refusal(file: &[u8]) -> u32
    ensures { Answers (file_checks file.now) result }
{
    match stored::read(file) {
        Ok(_) => 0,
        Err(e) => code(e),
    }
}

// The number of coin bits R of an accepted file's dimension: its coins are the numbers below 2^R.
// 0 where the file is refused.
//
// Ruled out: the 6 bits of dimension 7 for a refused file that names it; one bit more than R.
pub fn proximity_coin_bits(file: &[u8]) -> u32
    ensures { CoinBits file.now result }
{
    match stored::read(file) {
        Ok(r) => tables::coin_bits(r.setting.space.k),
        Err(_) => 0,
    }
}

// The checker for one coin: 0 for accept, 100 for reject, and the number of symbols read in `reads`;
// or the number of a refusal (the file's checks, then 8), which leaves `reads` as it came.
//
// Ruled out: 0 for a file that is rejected at this coin; a number of reads that a refused call
// writes, or 64 reads for every accepted file.
pub fn proximity_check_file(file: &[u8], coin: u64, reads: &mut u32) -> u32
    ensures { HostAnswer file.now coin reads.old reads.new result }
{
    match stored::check_file(file, coin) {
        Ok(Verdict::Accept(n)) => {
            *reads = n as u32;
            0
        }
        Ok(Verdict::Reject(r)) => {
            *reads = r.reads as u32;
            100
        }
        Err(e) => code(e),
    }
}

// How many bytes a file has in the other form: 0, and the length in `converted`; or the number of a
// refusal (the file's checks, then 14), which leaves `converted` as it came.
//
// Ruled out: the length of the file itself; a length that a refused call writes.
pub fn proximity_converted_length(file: &[u8], converted: &mut usize) -> u32
    ensures { HostLength file.now converted.old converted.new result }
{
    match filing::converted_length(file) {
        Ok(length) => {
            *converted = length;
            0
        }
        Err(e) => code(e),
    }
}

// Writes a file in the other form: 0, or the number of a refusal (the file's checks, 14, then 6 for an
// output of another length), which leaves the output as it came.
//
// Ruled out: 0 for a file with a shift other than 0; an output that a refused call changes.
pub fn proximity_convert(file: &[u8], out: &mut [u8]) -> u32
    ensures { HostConverted file.now out.old out.new result }
{
    match filing::convert(file, out) {
        Ok(()) => 0,
        Err(e) => code(e),
    }
}
