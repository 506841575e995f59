// From a codeword to its coefficients, in a setting that passed its checks.
ghost use Rattle.std.specs.Prelude.{◌≡◌, List, ℕ, ◌-◌, ◌^◌, ◌≤◌, length};
ghost use Rattle.lists.specs.All.{Below};
ghost use Rattle.lists.specs.Lanes.{lane};
ghost use Rattle.field.specs.Binary.{degree};
ghost use Rattle.space.specs.Ready.{Ready};
ghost use Rattle.space.specs.Usable.{Usable};
ghost use Rattle.codec.specs.Words.{Lengths, InBlockZero, DecodedWith};
ghost use Rattle.codec.specs.Calls.{CoefficientsAt};
ghost use Rattle.codec.specs.Scratch.{scratch_for};

use field::modulus::all_symbols;
use novel::powers_of;
use novel::shift::shift_powers;
use refusals::Refusal;
use space::Setting;
use transform::blocks::is_codeword;
use transform::slices::{copy, from_lane};

// The coefficients of a codeword at the shift 0, from those of its blocks over the novel basis,
// which are the first lanes of the scratch.
fn read_coefficients(s: Setting, coefficients: &mut [u16], scratch: &mut [u16])
    requires { Usable s × (length coefficients.old ≡ 2 ^ (s.space.k - 3)) × (scratch_for s.space.k ≤ length scratch.old) × Below (2 ^ degree s.field.modulus) (lane 8 0 (2 ^ (s.space.k - 3)) scratch.old) }
    ensures { Below (2 ^ degree s.field.modulus) coefficients.new × ((bs : List ℕ) → Ready s.field.modulus bs s → (word : List ℕ) → InBlockZero s bs word scratch.old → CoefficientsAt s.field.modulus bs 0 word coefficients.new) }
{
    let f = s.field;
    let steps = s.steps;
    let inverses = s.inverses;
    let size = coefficients.len();
    let end = size + size;
    from_lane(scratch, 8, 0, coefficients);
    powers_of(f, &steps, &inverses, s.space.k - 3, coefficients, scratch);
    copy(&scratch[size..end], coefficients);
}

// Checks 9 and 10, then the coefficients: those of P(x + shift), and from them those of P.
pub fn decode_with(
    s: Setting,
    word: &[u16],
    coefficients: &mut [u16],
    scratch: &mut [u16],
) -> Result<(), Refusal>
    requires { Usable s × Lengths s coefficients.old word.now scratch.old }
    ensures { DecodedWith s word.now coefficients.old coefficients.new result }
{
    let f = s.field;
    let images = s.space.images;
    let n = word.len();
    if !all_symbols(f, word) {
        return Err(Refusal::NoSymbol);
    }
    if !is_codeword(f, &images, s.space.k, word, &mut scratch[..n]) {
        return Err(Refusal::NoCodeword);
    }
    read_coefficients(s, coefficients, scratch);
    shift_powers(f, s.shift, s.space.k - 3, coefficients);
    Ok(())
}
