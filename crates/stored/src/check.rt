// The verdict on a word and a proof that stand in bytes. They are not copied: the symbols that the
// coin reads are gathered.
ghost use Rattle.std.specs.Prelude.{◌≡◌, List, ℕ, ◌^◌, ◌<◌, length, take};
ghost use Rattle.field.specs.Symbols.{symbols};
ghost use Rattle.poly.specs.Codeword.{Basis};
ghost use Rattle.space.specs.Images.{Images};
ghost use Rattle.proximity.specs.ByLine.{place_at};
ghost use Rattle.proximity.specs.Dim.{S};
ghost use Rattle.proximity.specs.Verifier.{read_at};
ghost use Rattle.verifier.specs.Checker.{symbols_at, reads_of, OnCoin};
ghost use Rattle.verifier.specs.Parts.{InSpace};
ghost use Rattle.stored.specs.Bytes.{numbers_at};
ghost use Rattle.stored.specs.Check.{Laid};

use super::bytes;
use field::Field;
use proximity::{Place, places, spaces};
use refusals::Refusal;
use space::Space;
use verifier::{Verdict, parts};

fn no_symbols() -> [u16; 64]
    ensures { length result ≡ 64 }
{
    [0u16; 64]
}

// The symbol of number i that a coin reads.
fn symbol(
    file: &[u8],
    narrow: bool,
    word: usize,
    proof: usize,
    k: usize,
    coin: u64,
    i: usize,
) -> u16
    requires { Laid narrow file.now k word proof × (i < reads_of k coin) }
    ensures { result ≡ read_at (numbers_at narrow file.now word (2 ^ k)) (numbers_at narrow file.now proof (S k)) (place_at k coin i) }
{
    match places::place(k, coin, i) {
        Place::InWord(p) => bytes::number_at(file, word, narrow, p),
        Place::InProof(p) => bytes::number_at(file, proof, narrow, p),
    }
}

// The n symbols that a coin reads.
fn symbols(
    file: &[u8],
    narrow: bool,
    word: usize,
    proof: usize,
    k: usize,
    coin: u64,
    n: usize,
) -> [u16; 64]
    requires { Laid narrow file.now k word proof × (n ≡ reads_of k coin) }
    ensures { (length result ≡ 64) × (take n result ≡ symbols_at k (numbers_at narrow file.now word (2 ^ k)) (numbers_at narrow file.now proof (S k)) coin) }
{
    let mut out = no_symbols();
    for i in 0..n {
        out[i] = symbol(file, narrow, word, proof, k, coin, i);
    }
    out
}

// The verdict on the word and the proof whose symbols begin at the two indices: that of the checker on
// the symbols that the coin reads.
pub fn verdict(
    f: Field,
    s: Space,
    file: &[u8],
    narrow: bool,
    word: usize,
    proof: usize,
    coin: u64,
) -> Result<Verdict, Refusal>
    requires { InSpace f s.k s.images × Laid narrow file.now s.k word proof }
    ensures { (b : List ℕ) → Basis (symbols f.modulus) s.k b → Images (symbols f.modulus) b s.images → OnCoin (symbols f.modulus) s.k b (numbers_at narrow file.now word (2 ^ s.k)) (numbers_at narrow file.now proof (S s.k)) coin result }
{
    let k = s.k;
    let t = spaces::leaf_space(&s.images, k, coin);
    let n = 1usize << t.k;
    let read = symbols(file, narrow, word, proof, k, coin, n);
    let short = &read[..n];
    let none = &short[..0];
    parts::check_word(f, t.k, &t.images, short, none, 0)
}
