// The word of a polynomial: its values at the elements of the space, in a setting that passed its
// checks. The word is told by its eight blocks, which are lanes.
#![tactic(auto)]

ghost use Rattle.std.specs.Prelude.{◌≡◌, ◌+◌, ◌*◌, ◌^◌, ◌≤◌, length};
ghost use Rattle.lists.specs.All.{Below};
ghost use Rattle.field.specs.Binary.{degree};
ghost use Rattle.space.specs.Sizes.{max_coefficients};
ghost use Rattle.space.specs.Usable.{Usable};
ghost use Rattle.evaluation.specs.Words.{spread_of, Fits, Filling, LanesOf, Taken, WordLanes};

use field::Field;
use novel::novel_of;
use space::{CELLS, MAX_COEFFICIENTS, Setting};
use transform::blocks::evaluate_blocks;
use transform::slices::copy;

// Each number eight times.
fn spread(from: &[u16], to: &mut [u16])
    requires { length to.old ≡ length from.now * 8 }
    ensures { to.new ≡ spread_of (length to.old) from.now }
{
    for (p, x) in to.iter_mut().enumerate() {
        *x = from[p / 8];
    }
}

// The eight blocks, as lanes, of the polynomial with the coefficients d over the novel basis.
fn fill_lanes(f: Field, images: &[u16; CELLS], k: usize, d: &[u16], lanes: &mut [u16])
    requires { Filling f images.now k d.now × (length lanes.old ≡ 2 ^ k) }
    ensures { LanesOf f.modulus images.now k d.now lanes.new }
{
    spread(d, lanes);
    evaluate_blocks(f, images, k, lanes);
}

fn no_coefficients() -> [u16; MAX_COEFFICIENTS]
    ensures { length result ≡ max_coefficients }
{
    [0u16; MAX_COEFFICIENTS]
}

// The d numbers from a place on, in front.
pub fn taken(from: &[u16], at: usize, d: usize) -> [u16; MAX_COEFFICIENTS]
    requires { (at + d ≤ length from.now) × (d ≤ max_coefficients) }
    ensures { Taken at d from.now result }
{
    let mut out = no_coefficients();
    let end = at + d;
    copy(&from[at..end], &mut out[..d]);
    out
}

// The eight blocks, as lanes in front of the scratch, of the word of coefficients that are symbols.
pub fn write_lanes(s: Setting, coefficients: &[u16], scratch: &mut [u16])
    requires { Usable s × Fits s coefficients.now scratch.old × Below (2 ^ degree s.field.modulus) coefficients.now }
    ensures { WordLanes s coefficients.now scratch.new }
{
    let f = s.field;
    let images = s.space.images;
    let steps = s.steps;
    let k = s.space.k;
    let size = coefficients.len();
    let n = 8 * size;
    novel_of(f, &steps, k - 3, coefficients, scratch);
    let d = taken(scratch, size, size);
    fill_lanes(f, &images, k, &d[..size], &mut scratch[..n]);
}
