// The two polynomials that the remainders start from.
ghost use Rattle.std.specs.Prelude.{◌≡◌, ◌+◌, ◌^◌, ◌<◌, length};
ghost use Rattle.lists.specs.All.{All, IsZero};
ghost use Rattle.novel.specs.Novel.{Stepped};
ghost use Rattle.transform.specs.Blocks.{InBlocks};
ghost use Rattle.correction.specs.Start.{Vanishing, WordInterpolated, InSetting, ThroughWord};

use field::Field;
use novel::convert::{power, table};
use novel::powers_in;
use space::{CELLS, MAX, Setting};
use transform::blocks::no_shift;
use transform::lanes::interpolate;
use transform::slices::copy;
use transform::spans::no_lanes;

// The coefficients of W_k, in place of zeros. It has the powers x^(2^i) alone.
pub fn vanishing(f: Field, steps: &[u16; 16], k: usize, values: &mut [u16])
    requires { Stepped f k steps.now × All IsZero values.old × (2 ^ k < length values.old) }
    ensures { Vanishing f.modulus steps.now k values.new }
{
    let t = table(f, steps, k + 1);
    for i in 0..k {
        values[power(i)] = t[MAX * k + i];
    }
    values[power(k)] = 1;
}

// The values of a word to the coefficients over the novel basis.
fn interpolate_word(f: Field, images: &[u16; CELLS], k: usize, values: &mut [u16])
    requires { InBlocks f images.now k values.old }
    ensures { WordInterpolated f.modulus images.now k values.old values.new }
{
    let lanes = no_lanes();
    interpolate(f, images, &lanes, 1, k, no_shift(), values);
}

// The coefficients of the polynomial through a word, behind room of their length.
pub fn through(s: Setting, word: &[u16], work: &mut [u16])
    requires { InSetting s word.now × All IsZero work.old × (length work.old ≡ length word.now + length word.now) }
    ensures { ThroughWord s word.now work.new }
{
    let f = s.field;
    let images = s.space.images;
    let steps = s.steps;
    let inverses = s.inverses;
    let k = s.space.k;
    let n = word.len();
    copy(word, work);
    interpolate_word(f, &images, k, &mut work[..n]);
    powers_in(f, &steps, &inverses, k, work);
}
