// The inverse of a symbol.
ghost use Rattle.std.specs.Prelude.{◌≡◌, ◌<◌, ◌^◌};
ghost use Rattle.field.specs.Binary.{degree, inverse, Irreducible};
ghost use Rattle.field.specs.Products.{Sized};

use super::Field;
use super::division::divide;
use super::products::mul;

// By the remainders of the modulus m: with m = q y + r the inverse of y is q times that of r. The
// remainder is never 0, since m is irreducible, so it comes down to 1.
pub fn inverse(f: Field, x: u16) -> u16
    requires sized { Sized f × Irreducible f.modulus }
    requires x_nonzero { (0 < x) × (x < 2 ^ degree f.modulus) }
    ensures { result ≡ inverse f.modulus x }
{
    let m = f.modulus;
    let mut acc: u16 = 1;
    let mut y = x;
    while 1 < y {
        let t = divide(m, y as u32);
        let q = t.quotient as u16;
        acc = mul(f, acc, q);
        y = t.remainder as u16;
    }
    acc
}
