// The transform and its inverse in each lane. The points of lane r are shift + x_r + element i; lanes
// has the images of x_r, that of number j at j * count + r.
ghost use Rattle.std.specs.Prelude.{◌≡◌, ℕ, ◌+◌, ◌*◌, ◌/◌, ◌<◌, ◌≤◌, ◌^◌, length, get_or};
ghost use Rattle.lists.specs.All.{Below};
ghost use Rattle.field.specs.Binary.{◌⊕◌, degree};
ghost use Rattle.field.specs.Products.{Sized};
ghost use Rattle.transform.specs.Layers.{Scaled, LowAdded, Layered, Unlayered};
ghost use Rattle.transform.specs.Lanes.{Shifted, InLanes, Evaluated, Interpolated};
ghost use Rattle.space.specs.Sizes.{max_dim};

use field::Field;
use space::CELLS;

// Adds (t + c) * high to low, where t repeats k times, of the two halves of values.
fn add_scaled(f: Field, t: &[u16], c: u16, k: usize, values: &mut [u16])
    requires sized { Sized f × (c < 2 ^ degree f.modulus) }
    requires below { Below (2 ^ degree f.modulus) t.now × Below (2 ^ degree f.modulus) values.old × (length values.old ≡ (k + k) * length t.now) }
    ensures { Scaled f.modulus c t.now k k values.old values.new }
{
    let n = values.len() / 2;
    for j in 0..k {
        let p = j * t.len();
        field::products::add_products(f, t, c, n + p, p, values);
    }
}

// Adds low to high, of the two halves of values.
fn add_low(values: &mut [u16])
    ensures { LowAdded (length values.old / 2) values.old values.new }
{
    let n = values.len() / 2;
    for i in 0..n {
        values[n + i] ^= values[i];
    }
}

// The layer of number j: lo + v hi and lo + (v + 1) hi, with v the image of number j of the lane's
// shift.
fn layer(f: Field, lanes: &[u16], count: usize, j: usize, c: u16, values: &mut [u16])
    requires sized { Sized f × (c < 2 ^ degree f.modulus) × (j < max_dim) × (j * count + count ≤ length lanes.now) }
    requires below { Below (2 ^ degree f.modulus) lanes.now × Below (2 ^ degree f.modulus) values.old × (length values.old ≡ (2 ^ j + 2 ^ j) * count) }
    ensures { Layered f.modulus j count (λ (r : ℕ). get_or lanes.now (j * count + r) 0 ⊕ c) values.old values.new }
{
    let a = j * count;
    let b = a + count;
    add_scaled(f, &lanes[a..b], c, 1usize << j, values);
    add_low(values);
}

// The layer of number j back.
fn inverse_layer(f: Field, lanes: &[u16], count: usize, j: usize, c: u16, values: &mut [u16])
    requires sized { Sized f × (c < 2 ^ degree f.modulus) × (j < max_dim) × (j * count + count ≤ length lanes.now) }
    requires below { Below (2 ^ degree f.modulus) lanes.now × Below (2 ^ degree f.modulus) values.old × (length values.old ≡ (2 ^ j + 2 ^ j) * count) }
    ensures { Unlayered f.modulus j count (λ (r : ℕ). get_or lanes.now (j * count + r) 0 ⊕ c) values.old values.new }
{
    let a = j * count;
    let b = a + count;
    add_low(values);
    add_scaled(f, &lanes[a..b], c, 1usize << j, values);
}

// The images x of a shift, with those of basis element i added.
pub fn shifted(images: &[u16; CELLS], i: usize, x: [u16; 16]) -> [u16; 16]
    requires { i < max_dim }
    ensures { Shifted images.now i x result }
{
    let mut out = x;
    for (j, y) in out.iter_mut().enumerate() {
        *y ^= images[16 * i + j];
    }
    out
}

// Coefficients to values, 2^m lists of count symbols.
pub fn evaluate(
    f: Field,
    images: &[u16; CELLS],
    lanes: &[u16],
    count: usize,
    m: usize,
    shift: [u16; 16],
    values: &mut [u16],
)
    requires { InLanes f images.now lanes.now count m shift values.old }
    ensures { Evaluated f.modulus images.now lanes.now count m shift values.old values.new }
{
    if m == 0 {
        return;
    }
    let j = m - 1;
    let n = values.len() / 2;
    layer(f, lanes, count, j, shift[j], values);
    evaluate(f, images, lanes, count, j, shift, &mut values[..n]);
    let upper = shifted(images, j, shift);
    evaluate(f, images, lanes, count, j, upper, &mut values[n..]);
}

// Values to coefficients, 2^m lists of count symbols.
pub fn interpolate(
    f: Field,
    images: &[u16; CELLS],
    lanes: &[u16],
    count: usize,
    m: usize,
    shift: [u16; 16],
    values: &mut [u16],
)
    requires { InLanes f images.now lanes.now count m shift values.old }
    ensures { Interpolated f.modulus images.now lanes.now count m shift values.old values.new }
{
    if m == 0 {
        return;
    }
    let j = m - 1;
    let n = values.len() / 2;
    interpolate(f, images, lanes, count, j, shift, &mut values[..n]);
    let upper = shifted(images, j, shift);
    interpolate(f, images, lanes, count, j, upper, &mut values[n..]);
    inverse_layer(f, lanes, count, j, shift[j], values);
}
