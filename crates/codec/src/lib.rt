// Encoder and decoder. A call makes its checks in order; a refusal leaves its output as it came, and
// past check 7 the scratch is zero.
#![tactic(auto)]

mod decoder;
mod encoder;

ghost use Rattle.std.specs.Prelude.{◌≤◌};
ghost use Rattle.lists.specs.Answers.{Answers};
ghost use Rattle.refusals.specs.Refusal.{answer_of};
ghost use Rattle.codec.specs.Calls.{length_checks, Encoded, Decoded};
ghost use Rattle.space.specs.Sizes.{max_dim};

use decoder::decode_with;
use encoder::encode_with;
use novel::convert::power;
use refusals::Refusal;
use transform::slices::clear;

// The scratch that encoder, decoder and prover take, in words of 2^k symbols.
pub const SCRATCH: usize = 4;

// Checks 6 and 7 of lengths, at dimension k.
#[tactic(auto, using(crate::proofs::CallLaws::eighth_is))]
fn check_lengths(k: usize, coefficients: usize, word: usize, scratch: usize) -> Result<(), Refusal>
    requires { (3 ≤ k) × (k ≤ max_dim) }
    ensures { Answers (length_checks k coefficients word scratch) (answer_of result) }
{
    let n = power(k);
    if coefficients != n / 8 || word != n {
        return Err(Refusal::Length);
    }
    if scratch < SCRATCH * n {
        return Err(Refusal::ScratchShort);
    }
    Ok(())
}

// The word of the coefficients: P at the shift plus element i in position i.
//
// Ruled out: a word that is left as it came where the call is done, since it is that of the
// coefficients; refusal 6 where the lengths are right and the scratch is short, since 7 is then
// the first check that refuses.
pub fn encode(
    modulus: u32,
    basis: &[u16],
    shift: u16,
    coefficients: &[u16],
    word: &mut [u16],
    scratch: &mut [u16],
) -> Result<(), Refusal>
    ensures { Encoded modulus basis.now shift coefficients.now word.old word.new scratch.old scratch.new result }
{
    let s = space::check(modulus, basis, shift)?;
    check_lengths(basis.len(), coefficients.len(), word.len(), scratch.len())?;
    let done = encode_with(s, coefficients, word, scratch);
    clear(scratch);
    done
}

// The coefficients of P, from a codeword that holds P at the shift plus element i in position i.
//
// Ruled out: refusal 10 for a word of zeros, which is a codeword; coefficients whose word differs
// from the given one in a symbol.
pub fn decode(
    modulus: u32,
    basis: &[u16],
    shift: u16,
    word: &[u16],
    coefficients: &mut [u16],
    scratch: &mut [u16],
) -> Result<(), Refusal>
    ensures { Decoded modulus basis.now shift word.now coefficients.old coefficients.new scratch.old scratch.new result }
{
    let s = space::check(modulus, basis, shift)?;
    check_lengths(basis.len(), coefficients.len(), word.len(), scratch.len())?;
    let done = decode_with(s, word, coefficients, scratch);
    clear(scratch);
    done
}
