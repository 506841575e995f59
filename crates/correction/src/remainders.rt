// The remainders of the extended Euclidean algorithm, one coefficient at a time, in a work slice: a
// pair of polynomials at 2n and one at 4n, their factors 4n further on, each with room for 2n
// coefficients.
ghost use Rattle.std.specs.Prelude.{◌⊎◌, ◌≡◌, ◌+◌, ◌*◌, ◌<◌, ◌≤◌, ◌^◌, length};
ghost use Rattle.lists.specs.All.{Below};
ghost use Rattle.lists.specs.Stretch.{Apart};
ghost use Rattle.field.specs.Binary.{degree, Irreducible};
ghost use Rattle.field.specs.Products.{Sized};
ghost use Rattle.correction.specs.Pairs.{Held, Advanced, AddedPair, Cancels, Cancelled};

use super::rows::add_multiple;
use field::Field;
use field::inverse::inverse;
use field::products::mul;

// The polynomial at `at` has the degree b, and the other one a degree below a.
#[derive(Clone, Copy)]
pub struct State {
    pub a: usize,
    pub b: usize,
    pub at: usize,
}

// Adds c times a polynomial of r coefficients, and c times its factor of v coefficients.
fn add_pair(
    f: Field,
    c: u16,
    from: usize,
    to: usize,
    far: usize,
    r: usize,
    v: usize,
    work: &mut [u16],
)
    requires sized { Sized f × Irreducible f.modulus × (c < 2 ^ degree f.modulus) × Below (2 ^ degree f.modulus) work.old }
    requires apart { Apart r from to (length work.old) × Apart v (from + far) (to + far) (length work.old) }
    ensures { AddedPair f.modulus c from to far r v work.old work.new }
{
    add_multiple(f, c, from, to, r, work);
    add_multiple(f, c, from + far, to + far, v, work);
}

// Takes coefficient j of the polynomial at `to` away, by a multiple of the polynomial of degree i at
// `from`; its factor has v coefficients.
fn cancel(
    f: Field,
    n: usize,
    from: usize,
    i: usize,
    to: usize,
    j: usize,
    v: usize,
    work: &mut [u16],
)
    requires { Cancels f n from i to j v work.old }
    ensures { Cancelled f.modulus n from i to j v work.old work.new }
{
    let x = work[to + j];
    let y = work[from + i];
    let c = mul(f, x, inverse(f, y));
    add_pair(f, c, from, to + (j - i), 4 * n, i + 1, v, work);
}

// One coefficient of the other polynomial goes: it is 0, or a multiple of the last remainder takes
// it away; or that one is the longer, and the two change places.
fn step(f: Field, n: usize, s: State, work: &mut [u16]) -> State
    requires { Held f n s.a s.b s.at work.old × (0 < s.a) }
    ensures { Advanced f n s.a s.b s.at work.old result.a result.b result.at work.new × (result.a + result.b < s.a + s.b) × ((result.b ≡ s.b) ⊎ (result.b + 1 ≡ s.a)) }
{
    let a = s.a - 1;
    let b = s.b;
    let last = s.at;
    let next = 6 * n - last;
    if work[next + a] == 0 {
        return State { a, b, at: last };
    }
    if b <= a {
        cancel(f, n, last, b, next, a, n - a, work);
        return State { a, b, at: last };
    }
    cancel(f, n, next, a, last, b, n - b + 1, work);
    State {
        a: b,
        b: a,
        at: next,
    }
}

// Steps until the other polynomial has a degree below m.
pub fn reduce(f: Field, n: usize, m: usize, work: &mut [u16]) -> State
    requires { Held f n n n (4 * n) work.old × (m ≤ n) }
    ensures { Advanced f n n n (4 * n) work.old result.a result.b result.at work.new × (result.a ≤ m) × (m ≤ result.b) }
{
    let mut a = n;
    let mut b = n;
    let mut at = 4 * n;
    while m < a {
        let r = step(f, n, State { a, b, at }, work);
        a = r.a;
        b = r.b;
        at = r.at;
    }
    State { a, b, at }
}
