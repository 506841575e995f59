// How far a word of dimension at most SMALL is off the codewords.
ghost use Rattle.std.specs.Prelude.{◌≡◌, List, ℕ, ◌^◌, ◌≤◌, length};
ghost use Rattle.space.specs.Ready.{Ready};
ghost use Rattle.correction.specs.Scratch.{correction_scratch};
ghost use Rattle.correction.specs.Start.{InSetting};
ghost use Rattle.stored.specs.File.{small_dim};
ghost use Rattle.coins.specs.Totals.{Off};

use correction::SCRATCH;
use correction::nearest::correct_with;
use space::Setting;
use stored::{SMALL, small};

fn no_scratch() -> [u16; SCRATCH << SMALL]
    ensures { length result ≡ correction_scratch small_dim }
{
    [0u16; SCRATCH << SMALL]
}

// The differences that the correction of the word finds; none where it finds no codeword.
pub fn off(setting: Setting, word: &[u16]) -> Option<usize>
    requires { InSetting setting word.now × (length word.now ≤ 2 ^ small_dim) }
    ensures { (bs : List ℕ) → Ready setting.field.modulus bs setting → Off setting.field.modulus bs word.now result }
{
    let n = word.len();
    let mut corrected = small::no_word();
    let mut scratch = no_scratch();
    correct_with(setting, word, &mut corrected[..n], &mut scratch).ok()
}
