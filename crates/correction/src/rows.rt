// A multiple of one stretch of a list added to another, by the list product of `field`.
ghost use Rattle.std.specs.Prelude.{◌≡◌, ◌<◌, ◌^◌, min, length};
ghost use Rattle.lists.specs.All.{All, Below, IsZero};
ghost use Rattle.lists.specs.Stretch.{Apart};
ghost use Rattle.field.specs.Binary.{degree, Irreducible};
ghost use Rattle.field.specs.Products.{Sized};
ghost use Rattle.correction.specs.Rows.{part_size, Added};

use field::Field;
use field::products::add_products;

// The numbers of one list product.
const PART: usize = 256;

fn zeros() -> [u16; PART]
    ensures { (length result ≡ part_size) × All IsZero result }
{
    [0u16; PART]
}

// The length of the next part of a list that has so many numbers left.
fn part_of(rest: usize) -> usize
    ensures { result ≡ min rest part_size }
{
    if rest < PART {
        return rest;
    }
    PART
}

// Adds c * values[from + i] to values[to + i], i below n.
pub fn add_multiple(f: Field, c: u16, from: usize, to: usize, n: usize, values: &mut [u16])
    requires { Sized f × Irreducible f.modulus × (c < 2 ^ degree f.modulus) × Below (2 ^ degree f.modulus) values.old × Apart n from to (length values.old) }
    ensures { Added f.modulus c from to n values.old values.new }
{
    let none = zeros();
    for i in (0..n).step_by(PART) {
        let size = part_of(n - i);
        add_products(f, &none[..size], c, from + i, to + i, values);
    }
}
