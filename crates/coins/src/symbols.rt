// The symbols of an accepted file within the limit, whose dimension is at most SMALL.
ghost use Rattle.std.specs.Prelude.{◌≡◌, ◌^◌, ◌≤◌, length, take};
ghost use Rattle.proximity.specs.Dim.{S};
ghost use Rattle.stored.specs.Bytes.{numbers_at};
ghost use Rattle.stored.specs.File.{file_limit, small_dim};
ghost use Rattle.coins.specs.Tally.{Readable};

use proximity::tables;
use stored::bytes::numbers_at;
use stored::{Reading, SMALL, SMALL_PROOF, small};

// The word, in the first 2^k places.
pub fn word_of(file: &[u8], r: Reading) -> [u16; 1 << SMALL]
    requires { Readable file.now r × (length file.now ≤ file_limit) }
    ensures { (length result ≡ 2 ^ small_dim) × (take (2 ^ r.setting.space.k) result ≡ numbers_at r.narrow file.now r.word (2 ^ r.setting.space.k)) }
{
    let at = r.word;
    let narrow = r.narrow;
    let n = 1usize << r.setting.space.k;
    let mut word = small::no_word();
    numbers_at(file, at, narrow, &mut word[..n]);
    word
}

// The proof, in the first S(k) places.
pub fn proof_of(file: &[u8], r: Reading) -> [u16; SMALL_PROOF]
    requires { Readable file.now r × (length file.now ≤ file_limit) }
    ensures { (length result ≡ S small_dim) × (take (S r.setting.space.k) result ≡ numbers_at r.narrow file.now r.proof (S r.setting.space.k)) }
{
    let at = r.proof;
    let narrow = r.narrow;
    let s = tables::proof_length(r.setting.space.k);
    let mut proof = small::no_proof();
    numbers_at(file, at, narrow, &mut proof[..s]);
    proof
}
