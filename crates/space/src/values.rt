// W_j(x) by its recurrence: W_0(x) = x and W_(j+1)(x) = W_j(x) (W_j(x) + W_j(b_(j+1))).
ghost use Rattle.std.specs.Prelude.{◌≡◌, ◌*◌, ◌<◌, ◌≤◌, ◌^◌, length};
ghost use Rattle.lists.specs.All.{Below};
ghost use Rattle.lists.specs.Filled.{Filled};
ghost use Rattle.field.specs.Binary.{degree};
ghost use Rattle.field.specs.Products.{Sized};
ghost use Rattle.space.specs.Values.{value_at, image_at};
ghost use Rattle.space.specs.Sizes.{max_dim, cells};

use field::Field;

// W_j(x), where steps has W_i(b_(i+1)) for i below j.
pub fn value(f: Field, steps: &[u16; 16], j: usize, x: u16) -> u16
    requires { Sized f × Below (2 ^ degree f.modulus) steps.now × (j ≤ 16) × (x < 2 ^ degree f.modulus) }
    ensures { result ≡ value_at f.modulus steps.now j x }
{
    let mut y = x;
    for s in &steps[..j] {
        y = field::products::mul(f, y, y ^ *s);
    }
    y
}

// W_i(x); beside it, the normalised images of x of number 0 to i - 1 go into row i of the images.
pub fn fill_row(
    f: Field,
    i: usize,
    x: u16,
    steps: &[u16; 16],
    inverses: &[u16; 16],
    images: &mut [u16],
) -> u16
    requires sized { Sized f × (i < max_dim) × (x < 2 ^ degree f.modulus) }
    requires below { Below (2 ^ degree f.modulus) steps.now × Below (2 ^ degree f.modulus) inverses.now × (length images.old ≡ cells) }
    ensures { (result ≡ value_at f.modulus steps.now i x) × Filled (16 * i) i (image_at f.modulus steps.now inverses.now x) images.old images.new }
{
    let mut y = x;
    for j in 0..i {
        let s = steps[j];
        let v = inverses[j];
        images[16 * i + j] = field::products::mul(f, y, v);
        y = field::products::mul(f, y, y ^ s);
    }
    y
}
