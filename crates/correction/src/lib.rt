// The codeword that is near a word, within half the distance of the code (mending, in the papers): Gao's
// decoder, whose cost grows with the number of differences.
#![tactic(auto)]

mod candidate;
mod division;
pub mod nearest;
mod remainders;
mod rows;
mod start;

ghost use Rattle.std.specs.Prelude.{◌≤◌};
ghost use Rattle.space.specs.Sizes.{max_dim};
ghost use Rattle.lists.specs.Answers.{Answers};
ghost use Rattle.refusals.specs.Refusal.{answer_of};
ghost use Rattle.correction.specs.Calls.{length_checks, CorrectedWord};

use nearest::correct_with;
use novel::convert::power;
use refusals::Refusal;
use transform::slices::clear;

// The scratch of a call, in words of 2^k symbols.
pub const SCRATCH: usize = 16;

// Checks 6 and 7 of lengths, at dimension k.
fn check_lengths(k: usize, word: usize, corrected: usize, scratch: usize) -> Result<(), Refusal>
    requires { (3 ≤ k) × (k ≤ max_dim) }
    ensures { Answers (length_checks k word corrected scratch) (answer_of result) }
{
    let n = power(k);
    if word != n || corrected != n {
        return Err(Refusal::Length);
    }
    if scratch < SCRATCH * n {
        return Err(Refusal::ScratchShort);
    }
    Ok(())
}

// The codeword that differs from the word in at most 7/16 of its positions, rounded down. There is
// never more than one (`one_near`). Past check 4 the shift changes nothing: the codewords are the same.
//
// Ruled out: a codeword that is not the near one, or a number that is not that of its differences;
// refusal 13 for a word with a near codeword; an output that a refused call has changed.
pub fn correct(
    modulus: u32,
    basis: &[u16],
    shift: u16,
    word: &[u16],
    corrected: &mut [u16],
    scratch: &mut [u16],
) -> Result<usize, Refusal>
    ensures { CorrectedWord modulus basis.now shift word.now corrected.old corrected.new scratch.old scratch.new result }
{
    let s = space::check(modulus, basis, shift)?;
    check_lengths(basis.len(), word.len(), corrected.len(), scratch.len())?;
    let found = correct_with(s, word, corrected, scratch);
    clear(scratch);
    found
}
