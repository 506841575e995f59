// The checker for one coin.
#![tactic(auto)]

mod blocks;
mod gather;
pub mod parts;

ghost use Rattle.std.specs.Prelude.{◌≤◌};
ghost use Rattle.lists.specs.Answers.{Answers};
ghost use Rattle.refusals.specs.Refusal.{answer_of};
ghost use Rattle.space.specs.Sizes.{max_dim};
ghost use Rattle.verifier.specs.Checker.{delivery_checks, Told};

use proximity::tables;
use refusals::Refusal;

// What a reject tells of the short word at which the coin ends: how many symbols were read, the least
// degree of a polynomial through them, and the dimension of their space.
#[derive(Clone, Copy, Debug, PartialEq, Eq)]
pub struct Rejection {
    pub reads: usize,
    pub degree: usize,
    pub dimension: usize,
}

// The verdict with the number of symbols read, a reject with the degree behind it.
#[derive(Clone, Copy, Debug, PartialEq, Eq)]
pub enum Verdict {
    Accept(usize),
    Reject(Rejection),
}

// Checks 6 and 8, of the lengths of word and proof and of the coin.
fn check_delivery(k: usize, word: usize, proof: usize, coin: u64) -> Result<(), Refusal>
    requires { k ≤ max_dim }
    ensures { Answers (delivery_checks k word proof coin) (answer_of result) }
{
    if word != 1usize << k || proof != tables::proof_length(k) {
        return Err(Refusal::Length);
    }
    if coin >> tables::coin_bits(k) != 0 {
        return Err(Refusal::NoCoin);
    }
    Ok(())
}

// The checker for one coin: checks 1 to 6, 8, and 9 of the symbols that the coin reads; then the
// verdict, with the number of symbols read; a reject also tells the least degree of a polynomial through
// them, and the dimension of their space. It writes nothing. Past check 4 the shift changes nothing:
// rows and columns are those of the span.
//
// Word and proof are read at the coin's positions alone. Two functions read them: `gather::symbols`,
// one symbol at each of the coin's places, and `gather::gather`, a word of at most 64 symbols, which
// the coin reads whole. All others lend parts on.
//
// Ruled out: accept for a pair whose row or column at this coin is no codeword, as a checker would
// say that waves columns through; 9 for a symbol that the coin does not read; the dimension of the
// whole word with a reject.
pub fn check<'a>(
    modulus: u32,
    basis: &[u16],
    shift: u16,
    word: &'a [u16],
    proof: &'a [u16],
    coin: u64,
) -> Result<Verdict, Refusal>
    ensures { Told modulus basis.now shift word.now proof.now coin result }
{
    let s = space::check(modulus, basis, shift)?;
    let k = basis.len();
    check_delivery(k, word.len(), proof.len(), coin)?;
    let images = s.space.images;
    parts::check_word(s.field, k, &images, word, proof, coin)
}
