// The eight blocks of a word of 2^k symbols as eight lanes, and the codeword test: a word is a
// codeword exactly when its blocks, each on its coset, have the same coefficients.
ghost use Rattle.std.specs.Prelude.{◌≡◌, ◌↔◌, ℕ, ◌/◌, ◌<◌, length, get_or};
ghost use Rattle.lists.specs.Decides.{Decides};
ghost use Rattle.transform.specs.Spans.{Zeros};
ghost use Rattle.transform.specs.Blocks.{InBlocks, BlocksInterpolated, BlocksEvaluated, EqualLanes, Tested};

use super::lanes::{evaluate, interpolate};
use super::slices::transpose;
use super::spans::span_lanes;
use field::Field;
use space::CELLS;

// The images of 0.
pub fn no_shift() -> [u16; 16]
    ensures { Zeros 16 result }
{
    [0u16; 16]
}

// The values of each block to its coefficients.
pub fn interpolate_blocks(f: Field, images: &[u16; CELLS], k: usize, values: &mut [u16])
    requires { InBlocks f images.now k values.old }
    ensures { BlocksInterpolated f.modulus images.now k values.old values.new }
{
    let lanes = span_lanes(images, k - 3, 3, k - 3);
    interpolate(f, images, &lanes, 8, k - 3, no_shift(), values);
}

// The coefficients of each block to its values.
pub fn evaluate_blocks(f: Field, images: &[u16; CELLS], k: usize, values: &mut [u16])
    requires { InBlocks f images.now k values.old }
    ensures { BlocksEvaluated f.modulus images.now k values.old values.new }
{
    let lanes = span_lanes(images, k - 3, 3, k - 3);
    evaluate(f, images, &lanes, 8, k - 3, no_shift(), values);
}

// 0 exactly where the list has 8 times the same number.
fn list_differs(v: &[u16]) -> u16
    requires { length v.now ≡ 8 }
    ensures { (result ≡ 0) ↔ ((r : ℕ) → r < 8 → get_or v.now r 0 ≡ get_or v.now 0 0) }
{
    (v[0] ^ v[1])
        | (v[0] ^ v[2])
        | (v[0] ^ v[3])
        | (v[0] ^ v[4])
        | (v[0] ^ v[5])
        | (v[0] ^ v[6])
        | (v[0] ^ v[7])
}

// Whether the eight lanes are alike.
pub fn equal_lanes(values: &[u16]) -> bool
    ensures { Decides result (EqualLanes (length values.now / 8) values.now) }
{
    let mut bad: u16 = 0;
    for list in values.chunks_exact(8) {
        bad |= list_differs(list);
    }
    bad == 0
}

// Whether the word of 2^k symbols is a codeword; work ends with the coefficients of each block.
//
// Ruled out: true for a word of degree n/8; false for a word of zeros.
pub fn is_codeword(
    f: Field,
    images: &[u16; CELLS],
    k: usize,
    word: &[u16],
    work: &mut [u16],
) -> bool
    requires { InBlocks f images.now k word.now × (length work.old ≡ length word.now) }
    ensures { Tested f.modulus images.now k word.now result work.new }
{
    transpose(word, 8, word.len() / 8, work);
    interpolate_blocks(f, images, k, work);
    equal_lanes(work)
}
