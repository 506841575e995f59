// P(x + shift) from P, on coefficients of powers of x: x^(2^j) becomes x^(2^j) + shift^(2^j), since
// squares are additive.
ghost use Rattle.std.specs.Prelude.{◌≡◌, ◌^◌, ◌≤◌, ◌<◌, length};
ghost use Rattle.space.specs.Sizes.{max_dim};
ghost use Rattle.lists.specs.All.{Below};
ghost use Rattle.field.specs.Binary.{degree, Irreducible};
ghost use Rattle.field.specs.Products.{Sized};
ghost use Rattle.novel.specs.Shift.{Squares, Shifted};

use super::convert::{TABLE, cells, none, to_monomials};
use field::Field;
use space::MAX;

// x^(2^j) at j, j below MAX.
fn squares(f: Field, x: u16) -> [u16; TABLE]
    requires { Sized f × Irreducible f.modulus × (x < 2 ^ degree f.modulus) }
    ensures { Squares f.modulus x result }
{
    let mut t = cells();
    let mut y = x;
    for square in &mut t[..MAX] {
        *square = y;
        y = field::products::mul(f, y, y);
    }
    t
}

// The coefficients of P(x + shift) from those of P, 2^m of them. It is its own inverse: P(x + shift)
// gives back P. The shift 0 changes nothing.
//
// Ruled out: the coefficients as they came, where the shift is not 0; another power of the shift in a
// factor.
pub fn shift_powers(f: Field, shift: u16, m: usize, values: &mut [u16])
    requires { Sized f × Irreducible f.modulus × (shift < 2 ^ degree f.modulus) × (m ≤ max_dim) × Below (2 ^ degree f.modulus) values.old × (length values.old ≡ 2 ^ m) }
    ensures { Shifted f.modulus shift values.old values.new }
{
    if shift == 0 {
        return;
    }
    let zeros = none();
    let t = squares(f, shift);
    to_monomials(f, &zeros, &t, true, m, values);
}
