// Long division in place.
ghost use Rattle.std.specs.Prelude.{◌+◌};
ghost use Rattle.correction.specs.Quotient.{Divides, DividedStep, Divided};

use super::rows::add_multiple;
use field::Field;
use field::products::mul;

// One coefficient of the quotient: it stays where the highest coefficient of the rest stood.
fn divide_step(f: Field, n: usize, e: usize, v: u16, at: usize, j: usize, work: &mut [u16])
    requires { Divides f n e v at (j + 1) work.old }
    ensures { DividedStep f.modulus n e v at j work.old work.new }
{
    let place = at + (j + e);
    let c = mul(f, work[place], v);
    work[place] = c;
    add_multiple(f, c, at + 4 * n, at + j, e, work);
}

// The d coefficients of the quotient of the polynomial at `at` by its factor of degree e, whose
// leading coefficient has the inverse v. They stand from coefficient e on.
pub fn divide(f: Field, n: usize, e: usize, v: u16, at: usize, d: usize, work: &mut [u16])
    requires { Divides f n e v at d work.old }
    ensures { Divided f.modulus n e v at d work.old work.new }
{
    for j in (0..d).rev() {
        divide_step(f, n, e, v, at, j, work);
    }
}
