// The verdicts at all coins, counted.
ghost use Rattle.std.specs.Prelude.{◌≡◌, ◌≤◌, length};
ghost use Rattle.stored.specs.File.{file_limit};
ghost use Rattle.coins.specs.Tally.{rejects_in, reads_in, Readable};
ghost use Rattle.coins.specs.Totals.{Swept};

use super::{Sweep, symbols};
use proximity::tables;
use refusals::Refusal;
use stored::Reading;
use verifier::{Verdict, parts};

// 1 for a rejection, else 0.
fn rejecting(v: Result<Verdict, Refusal>) -> u64
    ensures { result ≡ rejects_in v }
{
    match v {
        Ok(Verdict::Reject(_)) => 1,
        _ => 0,
    }
}

// The symbols read.
fn reads(v: Result<Verdict, Refusal>) -> usize
    ensures { result ≡ reads_in v }
{
    match v {
        Ok(Verdict::Accept(n)) => n,
        Ok(Verdict::Reject(r)) => r.reads,
        Err(_) => 0,
    }
}

// All coins of an accepted file within the limit, tried one after the other.
pub fn all_coins(file: &[u8], r: Reading) -> Sweep
    requires { Readable file.now r × (length file.now ≤ file_limit) }
    ensures { Swept file.now result.k result.coins result.rejects result.most }
{
    let setting = r.setting;
    let field = setting.field;
    let images = setting.space.images;
    let k = setting.space.k;
    let n = 1usize << k;
    let s = tables::proof_length(k);
    let word = symbols::word_of(file, r);
    let proof = symbols::proof_of(file, r);
    let coins = 1u64 << tables::coin_bits(k);
    let mut rejects: u64 = 0;
    let mut most: usize = 0;
    for coin in 0..coins {
        let v = parts::check_word(field, k, &images, &word[..n], &proof[..s], coin);
        rejects += rejecting(v);
        most = most.max(reads(v));
    }
    Sweep {
        k,
        coins,
        rejects,
        most,
    }
}
