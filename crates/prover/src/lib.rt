// The prover: the proof of a codeword. A call makes its checks in order; a refusal leaves the proof
// as it came, and past check 7 the scratch is zero.
#![tactic(auto)]

mod write;

ghost use Rattle.std.specs.Prelude.{◌≤◌};
ghost use Rattle.lists.specs.Answers.{Answers};
ghost use Rattle.refusals.specs.Refusal.{answer_of};
ghost use Rattle.prover.specs.Calls.{length_checks, Proven, InSetting, ProvenWith};
ghost use Rattle.space.specs.Sizes.{max_dim};

use field::modulus::all_symbols;
use proximity::tables;
use refusals::Refusal;
use space::Setting;
use transform::blocks::is_codeword;
use transform::slices::clear;

// Checks 6 and 7 of lengths, at dimension k.
#[tactic(auto, using(rows::proofs::Passes::power))]
fn check_lengths(k: usize, word: usize, proof: usize, scratch: usize) -> Result<(), Refusal>
    requires { (3 ≤ k) × (k ≤ max_dim) }
    ensures { Answers (length_checks k word proof scratch) (answer_of result) }
{
    let n = 1usize << k;
    if word != n || proof != tables::proof_length(k) {
        return Err(Refusal::Length);
    }
    if scratch < codec::SCRATCH * n {
        return Err(Refusal::ScratchShort);
    }
    Ok(())
}

// Checks 9 and 10, then the proof.
fn prove_with(
    s: Setting,
    word: &[u16],
    proof: &mut [u16],
    scratch: &mut [u16],
) -> Result<(), Refusal>
    requires { InSetting s word.now proof.old scratch.old }
    ensures { ProvenWith s word.now proof.old proof.new result }
{
    let f = s.field;
    let k = s.space.k;
    let images = s.space.images;
    let n = word.len();
    if !all_symbols(f, word) {
        return Err(Refusal::NoSymbol);
    }
    if !is_codeword(f, &images, k, word, &mut scratch[..n]) {
        return Err(Refusal::NoCodeword);
    }
    write::prove_in(f, k, &images, word, proof, scratch);
    Ok(())
}

// The proof of a codeword: of P(x + shift), where the word holds P at the shift plus element i. Past
// check 4 the shift changes nothing, since it is the polynomial whose values over the span the word is.
//
// Ruled out: true rows with inner proofs of zeros, since all of the proof is that of the word's
// polynomial; refusal 10 for a word with a number that is no symbol, since 9 comes first.
pub fn prove(
    modulus: u32,
    basis: &[u16],
    shift: u16,
    word: &[u16],
    proof: &mut [u16],
    scratch: &mut [u16],
) -> Result<(), Refusal>
    ensures { Proven modulus basis.now shift word.now proof.old proof.new scratch.old scratch.new result }
{
    let s = space::check(modulus, basis, shift)?;
    check_lengths(basis.len(), word.len(), proof.len(), scratch.len())?;
    let done = prove_with(s, word, proof, scratch);
    clear(scratch);
    done
}
