// The totals over all coins of a stored file.
#![tactic(auto)]

mod off;
mod symbols;
pub mod tally;

ghost use Rattle.coins.specs.Totals.{Told};

use refusals::Refusal;

// What all coins of a file tell: the dimension, the number of coins, how many of them reject, and
// the most symbols that one of them reads.
#[derive(Clone, Copy, Debug, PartialEq, Eq)]
pub struct Sweep {
    pub k: usize,
    pub coins: u64,
    pub rejects: u64,
    pub most: usize,
}

// What all coins tell, and how far the word is off the codewords by its correction: the number of differences
// that it finds, or none where it finds no codeword.
#[derive(Clone, Copy, Debug, PartialEq, Eq)]
pub struct Counts {
    pub sweep: Sweep,
    pub off: Option<usize>,
}

// Tries all coins of a stored file within the limit: check 6, the file's checks, the totals.
//
// Ruled out: a reject count that is not the number of coins whose verdict is reject; a number for a
// word that no codeword is near; 11 or 12 for a file above the limit, since that gets 6 first.
pub fn count(file: &[u8]) -> Result<Counts, Refusal>
    ensures { Told file.now result }
{
    if stored::FILE_LIMIT < file.len() {
        return Err(Refusal::Length);
    }
    let r = stored::read(file)?;
    let setting = r.setting;
    let places = symbols::word_of(file, r);
    let word = &places[..1usize << setting.space.k];
    let off = off::off(setting, word);
    let sweep = tally::all_coins(file, r);
    Ok(Counts { sweep, off })
}
