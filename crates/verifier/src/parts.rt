// The check of a word and its proof by the bits of a coin.
ghost use Rattle.std.specs.Prelude.{◌≡◌, List, ℕ, ◌-◌, ◌/◌, ◌^◌, ◌≤◌, length, take, drop};
ghost use Rattle.field.specs.Symbols.{symbols};
ghost use Rattle.poly.specs.Codeword.{Basis, Codeword};
ghost use Rattle.space.specs.Images.{Images};
ghost use Rattle.transform.specs.Slices.{Transposed};
ghost use Rattle.proximity.specs.Dim.{S};
ghost use Rattle.verifier.specs.Checker.{OnCoin};
ghost use Rattle.verifier.specs.OnCoin.{By};
ghost use Rattle.verifier.specs.Parts.{InSpace, Lent, joined, no_symbols};

use super::{Rejection, Verdict, blocks, gather};
use field::{Field, modulus};
use proximity::{Line, lines, spaces};
use refusals::Refusal;
use space::CELLS;
use transform::degree::least_degree;

// The verdict on a short word that is given in lanes: all its symbols are read. A reject tells its
// least degree and its dimension.
fn short_verdict(
    f: Field,
    k: usize,
    images: &[u16; CELLS],
    read: [u16; 64],
) -> Result<Verdict, Refusal>
    requires { InSpace f k images.now × (k ≤ 6) × (length read ≡ 64) }
    ensures { (b w : List ℕ) → Basis (symbols f.modulus) k b → Images (symbols f.modulus) b images.now → length w ≡ 2 ^ k → Transposed 8 (2 ^ (k - 3)) w no_symbols read → By (symbols f.modulus) (Codeword (symbols f.modulus) k b w) (2 ^ k) k b w result }
{
    if !modulus::all_symbols(f, &read) {
        return Err(Refusal::NoSymbol);
    }
    let reads = 1usize << k;
    match least_degree(f, k, images, read) {
        None => Ok(Verdict::Accept(reads)),
        Some(degree) => Ok(Verdict::Reject(Rejection {
            reads,
            degree,
            dimension: k,
        })),
    }
}

// The first of a word's eight blocks.
fn first_block(word: &[u16]) -> &[u16]
    ensures { result.now ≡ take (length word.now / 8) word.now }
{
    let n = word.len() / 8;
    &word[..n]
}

// The seven other blocks.
fn other_blocks(word: &[u16]) -> &[u16]
    ensures { result.now ≡ drop (length word.now / 8) word.now }
{
    let n = word.len() / 8;
    &word[n..]
}

// The check of a word in two parts and its proof, by the bits left of a coin: the same is done with
// the row or column that the coin takes. The dimension falls each time. A row is lent on in two
// parts, unread. A column is scattered over the rows: of it, and of its proof if it has one, the
// symbols that the coin reads are fetched one by one, and they are the short word that is left.
pub fn check_parts<'a>(
    f: Field,
    k: usize,
    images: &[u16; CELLS],
    near: &'a [u16],
    far: &'a [u16],
    slot: usize,
    proof: &'a [u16],
    coin: u64,
) -> Result<Verdict, Refusal>
    requires { InSpace f k images.now × Lent k near.now far.now slot proof.now }
    ensures { (b : List ℕ) → Basis (symbols f.modulus) k b → Images (symbols f.modulus) b images.now → OnCoin (symbols f.modulus) k b (joined near.now far.now slot) proof.now coin result }
{
    if k <= 6 {
        return short_verdict(f, k, images, gather::gather(near, far, slot));
    }
    let rest = lines::rest_of(k, coin);
    let line = lines::line_of(k, coin);
    let m = lines::line_dimension(k, line);
    let t = spaces::line_images(images, k, line);
    let inner = blocks::line_proof(proof, k, line);
    match line {
        Line::Row(r) => check_parts(
            f,
            m,
            &t,
            blocks::row_near(near, far, slot, k, r),
            blocks::row_far(proof, k, r),
            lines::slot(r),
            inner,
            rest,
        ),
        Line::Column(a) => {
            let s = spaces::leaf_space(&t, m, rest);
            let n = 1usize << s.k;
            let read = gather::symbols(near, far, slot, proof, k, a, rest, n);
            let short = &read[..n];
            let first = first_block(short);
            let others = other_blocks(short);
            let none = &inner[..0];
            check_parts(f, s.k, &s.images, first, others, 0, none, 0)
        }
    }
}

// The check of a plain word.
pub fn check_word<'a>(
    f: Field,
    k: usize,
    images: &[u16; CELLS],
    word: &'a [u16],
    proof: &'a [u16],
    coin: u64,
) -> Result<Verdict, Refusal>
    requires { InSpace f k images.now × (length word.now ≡ 2 ^ k) × (length proof.now ≡ S k) }
    ensures { (b : List ℕ) → Basis (symbols f.modulus) k b → Images (symbols f.modulus) b images.now → OnCoin (symbols f.modulus) k b word.now proof.now coin result }
{
    check_parts(
        f,
        k,
        images,
        first_block(word),
        other_blocks(word),
        0,
        proof,
        coin,
    )
}
