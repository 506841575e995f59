// From coefficients to the word, in a setting that passed its checks.
ghost use Rattle.std.specs.Prelude.{◌≡◌, List, ℕ, ◌^◌, length};
ghost use Rattle.lists.specs.All.{Below};
ghost use Rattle.field.specs.Binary.{degree};
ghost use Rattle.field.specs.Symbols.{symbols};
ghost use Rattle.poly.specs.Codeword.{word_of};
ghost use Rattle.space.specs.Ready.{Ready};
ghost use Rattle.space.specs.Usable.{Usable};
ghost use Rattle.codec.specs.Words.{Lengths, EncodedWith};

use evaluation::{taken, write_lanes};
use field::modulus::all_symbols;
use novel::shift::shift_powers;
use refusals::Refusal;
use space::Setting;
use transform::slices::transpose;

// The word of coefficients that are symbols, without the shift.
fn write_word(s: Setting, coefficients: &[u16], word: &mut [u16], scratch: &mut [u16])
    requires { Usable s × Lengths s coefficients.now word.old scratch.old × Below (2 ^ degree s.field.modulus) coefficients.now }
    ensures { (bs : List ℕ) → Ready s.field.modulus bs s → word.new ≡ word_of (symbols s.field.modulus) (length bs) bs coefficients.now }
{
    let size = coefficients.len();
    let n = word.len();
    write_lanes(s, coefficients, scratch);
    transpose(&scratch[..n], size, 8, word);
}

// Check 9, then the word: that of P(x + shift) without the shift.
pub fn encode_with(
    s: Setting,
    coefficients: &[u16],
    word: &mut [u16],
    scratch: &mut [u16],
) -> Result<(), Refusal>
    requires { Usable s × Lengths s coefficients.now word.old scratch.old }
    ensures { EncodedWith s coefficients.now word.old word.new result }
{
    let f = s.field;
    if !all_symbols(f, coefficients) {
        return Err(Refusal::NoSymbol);
    }
    let n = coefficients.len();
    let mut moved = taken(coefficients, 0, n);
    let front = &mut moved[..n];
    shift_powers(f, s.shift, s.space.k - 3, front);
    write_word(s, front, word, scratch);
    Ok(())
}
