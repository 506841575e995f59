// The elements of a span by number.
ghost use Rattle.std.specs.Prelude.{◌≡◌, ℕ, ◌≤◌, length};
ghost use Rattle.field.specs.Symbols.{symbols};
ghost use Rattle.poly.specs.Span.{elem};

// Element i: the sum of those basis elements b_(j+1) with bit j of i set.
pub fn element(basis: &[u16], i: usize) -> u16
    requires { length basis.now ≤ 16 }
    ensures { (m : ℕ) → result ≡ elem (symbols m) basis.now i }
{
    let mut sum: u16 = 0;
    for (j, x) in basis.iter().enumerate() {
        let bit = ((i >> j) % 2) as u16;
        sum ^= bit * *x;
    }
    sum
}
