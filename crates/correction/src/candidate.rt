// The only polynomial whose word can be near a given one.
ghost use Rattle.std.specs.Prelude.{◌≡◌, ◌*◌, ◌≤◌, length};
ghost use Rattle.space.specs.Sizes.{max_word};
ghost use Rattle.correction.specs.Near.{radius};
ghost use Rattle.correction.specs.Start.{InSetting};
ghost use Rattle.correction.specs.Candidate.{Loaded, Beginning, Begun, Prepared, Found};
ghost use Rattle.correction.specs.Scratch.{scratch_words};

use super::division::divide;
use super::remainders::reduce;
use super::start::{through, vanishing};
use field::Field;
use field::inverse::inverse;
use space::Setting;
use transform::slices::clear;

// At most so many positions of a word of n symbols are put right.
pub fn radius(n: usize) -> usize
    requires { n ≤ max_word }
    ensures { result ≡ radius n }
{
    7 * n / 16
}

// The polynomial through the word at 2n, and zeros.
fn load(s: Setting, word: &[u16], scratch: &mut [u16])
    requires { InSetting s word.now × (scratch_words * length word.now ≤ length scratch.old) }
    ensures { Loaded s word.now scratch.old scratch.new }
{
    let n = word.len();
    let end = 3 * n;
    clear(scratch);
    through(s, word, &mut scratch[n..end]);
}

// The polynomial that vanishes at 4n, and the factor 1 of the other one.
fn begin(f: Field, steps: &[u16; 16], k: usize, n: usize, work: &mut [u16])
    requires { Beginning f steps.now k n work.old }
    ensures { Begun f.modulus steps.now k n work.old work.new }
{
    let from = 4 * n;
    let end = 6 * n;
    vanishing(f, steps, k, &mut work[from..end]);
    work[end] = 1;
}

// The first remainders.
fn prepare(s: Setting, word: &[u16], scratch: &mut [u16])
    requires { InSetting s word.now × (scratch_words * length word.now ≤ length scratch.old) }
    ensures { Prepared s word.now scratch.old scratch.new }
{
    let f = s.field;
    let steps = s.steps;
    let k = s.space.k;
    let n = word.len();
    load(s, word, scratch);
    begin(f, &steps, k, n, scratch);
}

// Where its coefficients stand: a remainder of low degree over its factor.
pub fn candidate(s: Setting, word: &[u16], scratch: &mut [u16]) -> usize
    requires { InSetting s word.now × (scratch_words * length word.now ≤ length scratch.old) }
    ensures { Found s word.now scratch.old scratch.new result }
{
    let f = s.field;
    let n = word.len();
    prepare(s, word, scratch);
    let t = radius(n);
    let r = reduce(f, n, n - t, scratch);
    let e = n - r.b;
    let at = 6 * n - r.at;
    let v = inverse(f, scratch[at + 4 * n + e]);
    divide(f, n, e, v, at, n / 8, scratch);
    at + e
}
