// The degree of a short word: whether it is a codeword, and if not, the least degree of a polynomial
// through its symbols. This is the number of its highest coefficient over the novel basis that is not
// 0. The coefficients of the eight blocks tell the one, and three layers more give the other.
ghost use Rattle.std.specs.Prelude.{◌≡◌, ◌^◌, ◌≤◌, length, take};
ghost use Rattle.space.specs.Sizes.{cells};
ghost use Rattle.transform.specs.Blocks.{InBlocks};
ghost use Rattle.transform.specs.Degree.{Highest, BlocksJoined, ToldInLanes};

use super::blocks::{equal_lanes, interpolate_blocks, no_shift};
use super::lanes::interpolate;
use super::slices::transpose;
use super::spans::no_lanes;
use field::Field;
use space::CELLS;

// The place of the last number that is not 0; 0 where there is none.
//
// Ruled out: the place of the last zero; one place less.
pub fn highest(values: &[u16]) -> usize
    ensures { Highest values.now result }
{
    values.iter().rposition(|x| *x != 0).unwrap_or(0)
}

fn no_symbols() -> [u16; 64]
    ensures { length result ≡ 64 }
{
    [0u16; 64]
}

// The coefficients of a short word, from those of its eight blocks, which are given in lanes.
fn join_blocks(f: Field, k: usize, images: &[u16; CELLS], blocks: [u16; 64]) -> [u16; 64]
    requires { InBlocks f images.now k (take (2 ^ k) blocks) × (k ≤ 6) × (length blocks ≡ 64) × (length images.now ≡ cells) }
    ensures { BlocksJoined f.modulus images.now k blocks result }
{
    let n = 1usize << k;
    let size = n / 8;
    let upper = space::upper::upper_images(images, k - 3);
    let lanes = no_lanes();
    let mut out = no_symbols();
    transpose(&blocks, size, 8, &mut out);
    interpolate(f, &upper, &lanes, size, 3, no_shift(), &mut out[..n]);
    out
}

// The least degree of a polynomial through a word of at most 64 symbols that is given in lanes; none for a
// codeword, whose degree is within the limit.
//
// Ruled out: the degree of another polynomial than one of the least degree; a degree for a codeword.
pub fn least_degree(f: Field, k: usize, images: &[u16; CELLS], symbols: [u16; 64]) -> Option<usize>
    requires { InBlocks f images.now k (take (2 ^ k) symbols) × (k ≤ 6) × (length symbols ≡ 64) × (length images.now ≡ cells) }
    ensures { ToldInLanes f.modulus images.now k symbols result }
{
    let n = 1usize << k;
    let mut work = symbols;
    interpolate_blocks(f, images, k, &mut work[..n]);
    if equal_lanes(&work[..n]) {
        return None;
    }
    let coefficients = join_blocks(f, k, images, work);
    Some(highest(&coefficients[..n]))
}
