// The nearest codeword, in a setting that passed its checks.
ghost use Rattle.std.specs.Prelude.{◌≡◌, ◌*◌, ◌≤◌, length};
ghost use Rattle.evaluation.specs.Lanes.{in_order};
ghost use Rattle.correction.specs.Differences.{differences};
ghost use Rattle.correction.specs.Start.{InSetting};
ghost use Rattle.correction.specs.Nearest.{NearestWith, CorrectedWith, InPlaces};
ghost use Rattle.correction.specs.Scratch.{scratch_words};

use super::candidate::{candidate, radius};
use evaluation::{taken, write_lanes};
use field::modulus::all_symbols;
use refusals::Refusal;
use space::Setting;
use transform::blocks::is_codeword;
use transform::slices::{copy, transpose};

// At how many positions the word differs from the one whose eight blocks are the lanes.
fn differing(word: &[u16], size: usize, lanes: &[u16]) -> usize
    requires { (length word.now ≡ 8 * size) × (length lanes.now ≡ 8 * size) }
    ensures { result ≡ differences word.now (in_order size lanes.now) }
{
    let mut n: usize = 0;
    for (i, x) in word.iter().enumerate() {
        if *x != lanes[i % size * 8 + i / size] {
            n += 1;
        }
    }
    n
}

// Check 13, then the codeword and the number of differences.
fn find_nearest(
    s: Setting,
    word: &[u16],
    corrected: &mut [u16],
    scratch: &mut [u16],
) -> Result<usize, Refusal>
    requires { InSetting s word.now × (scratch_words * length word.now ≤ length scratch.old) × (length corrected.old ≡ length word.now) }
    ensures { NearestWith s word.now corrected.old corrected.new result }
{
    let n = word.len();
    let size = n / 8;
    let at = candidate(s, word, scratch);
    let p = taken(scratch, at, size);
    write_lanes(s, &p[..size], scratch);
    let count = differing(word, size, &scratch[..n]);
    let most = radius(n);
    if most < count {
        return Err(Refusal::Far);
    }
    transpose(&scratch[..n], size, 8, corrected);
    Ok(count)
}

// Checks 9 and 13, then the codeword and the number of differences. A word that is a codeword is its
// own: no search.
pub fn correct_with(
    s: Setting,
    word: &[u16],
    corrected: &mut [u16],
    scratch: &mut [u16],
) -> Result<usize, Refusal>
    requires { InPlaces s word.now corrected.old scratch.old }
    ensures { CorrectedWith s word.now corrected.old corrected.new result }
{
    let f = s.field;
    if !all_symbols(f, word) {
        return Err(Refusal::NoSymbol);
    }
    let images = s.space.images;
    let n = word.len();
    if is_codeword(f, &images, s.space.k, word, &mut scratch[..n]) {
        copy(word, corrected);
        return Ok(0);
    }
    find_nearest(s, word, corrected, scratch)
}
