// The degree, and division with remainder, of polynomials over GF(2).
ghost use Rattle.std.specs.Prelude.{◌≡◌, ◌<◌};
ghost use Rattle.field.specs.Binary.{degree};
ghost use Rattle.field.specs.Division.{Divided};

#[derive(Clone, Copy)]
pub struct Division {
    pub quotient: u32,
    pub remainder: u32,
}

// The position of the highest one bit of v; 0 for v = 0.
pub fn degree_of(v: u32) -> u32
    ensures { result ≡ degree v }
{
    if v == 0 {
        return 0;
    }
    31 - u32::leading_zeros(v)
}

// Long division of v by d, from the highest bit of v down to that of d. The bit is a number, times
// the shifted divisor. Compiled, this was a branch in `irreducible` and none in `inverse`.
pub fn divide(v: u32, d: u32) -> Division
    requires { (v < 131072) × (0 < d) × (d < 131072) }
    ensures { Divided v d result.quotient result.remainder }
{
    let e = degree_of(d);
    let mut q: u32 = 0;
    let mut x = v;
    let n = degree_of(v) + 1;
    for i in (e..n).rev() {
        let top = (x >> i) % 2;
        q ^= top << (i - e);
        x ^= top * (d << (i - e));
    }
    Division {
        quotient: q,
        remainder: x,
    }
}
