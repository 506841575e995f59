// Products of symbols, shaped so that the compiler vectorises them.
ghost use Rattle.std.specs.Prelude.{◌≡◌, ◌*◌, ◌/◌, ◌%◌, ◌<◌, ◌≤◌, ◌^◌, length};
ghost use Rattle.lists.specs.All.{Below};
ghost use Rattle.lists.specs.Stretch.{Apart};
ghost use Rattle.field.specs.Binary.{◌⊕◌, degree, product};
ghost use Rattle.field.specs.Products.{Sized, accumulated};

use super::Field;

// The double of x, where bit 15 is the highest bit of a symbol and m the modulus without its bit
// 16. The top bit is a number, times the modulus: no branch.
fn twice(m: u16, x: u16) -> u16
    ensures { result ≡ (x % 32768 * 2) ⊕ (x / 32768 * m) }
{
    ((x % 32768) * 2) ^ ((x / 32768) * m)
}

// The product of two symbols: Horner's rule over the bits of y in 16 steps, on symbols that are
// shifted up to bit 15. It has one caller, so that the compiler puts it into that loop.
fn times(modulus: u32, l: u32, x: u16, y: u16) -> u16
    requires { (l ≡ degree modulus) × (0 < l) × (l ≤ 16) × (x < 2 ^ l) × (y < 2 ^ l) }
    ensures { result ≡ product modulus x y }
{
    let s = 16 - l;
    let m = ((modulus << s) % 65536) as u16;
    let z = x << s;
    let mut acc: u16 = 0;
    for i in (0..16u32).rev() {
        acc = twice(m, acc) ^ (((y >> i) % 2) * z);
    }
    acc >> s
}

// Adds (t[i] + c) * values[from + i] to values[to + i], at each i of t.
pub fn add_products(f: Field, t: &[u16], c: u16, from: usize, to: usize, values: &mut [u16])
    requires sized { Sized f × (c < 2 ^ degree f.modulus) }
    requires below { Below (2 ^ degree f.modulus) t.now × Below (2 ^ degree f.modulus) values.old × Apart (length t.now) from to (length values.old) }
    ensures { values.new ≡ accumulated f.modulus c t.now from to values.old }
{
    let m = f.modulus;
    let l = f.degree;
    for (i, x) in t.iter().enumerate() {
        values[to + i] ^= times(m, l, *x ^ c, values[from + i]);
    }
}

// The product of two symbols.
pub fn mul(f: Field, a: u16, b: u16) -> u16
    requires { Sized f × (a < 2 ^ degree f.modulus) × (b < 2 ^ degree f.modulus) }
    ensures { result ≡ product f.modulus a b }
{
    let t = [a];
    let mut values = [0u16, b];
    add_products(f, &t, 0, 1, 0, &mut values);
    values[0]
}
