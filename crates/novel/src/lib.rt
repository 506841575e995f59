// Between coefficients of powers of x and those over the novel basis: the products of W_j, each over
// its step.
#![tactic(auto)]

pub mod convert;
pub mod shift;

ghost use Rattle.std.specs.Prelude.{◌≡◌, ◌+◌, ◌^◌, ◌≤◌, ◌++◌, length, take, drop};
ghost use Rattle.lists.specs.All.{All, Below, IsZero};
ghost use Rattle.lists.specs.Calls.{zeros};
ghost use Rattle.lists.specs.Stretch.{stretch};
ghost use Rattle.field.specs.Binary.{degree};
ghost use Rattle.novel.specs.Novel.{Stepped, Changed, Scaled, NovelOf, PowersOf};

use convert::{from_monomials, none, power, scales, table, to_monomials};
use field::Field;
use transform::slices::{clear, copy};

// From powers of x to products of W_j.
fn from_powers(f: Field, steps: &[u16; 16], m: usize, values: &mut [u16])
    requires { Stepped f m steps.now × Below (2 ^ degree f.modulus) values.old × (length values.old ≡ 2 ^ m) }
    ensures { Changed f.modulus steps.now m values.new values.old }
{
    let zeros = none();
    let t = table(f, steps, m);
    from_monomials(f, &zeros, &t, m, values);
}

// From products of W_j to powers of x.
fn to_powers(f: Field, steps: &[u16; 16], m: usize, values: &mut [u16])
    requires { Stepped f m steps.now × Below (2 ^ degree f.modulus) values.old × (length values.old ≡ 2 ^ m) }
    ensures { Changed f.modulus steps.now m values.old values.new }
{
    let zeros = none();
    let t = table(f, steps, m);
    to_monomials(f, &zeros, &t, false, m, values);
}

// Adds the first 2^m numbers, times the products of the factors over the one bits of their place, to
// the 2^m numbers behind them.
fn scale(f: Field, factors: &[u16; 16], m: usize, work: &mut [u16])
    requires { Stepped f m factors.now × Below (2 ^ degree f.modulus) work.old × (2 ^ m + 2 ^ m ≤ length work.old) }
    ensures { Scaled f.modulus factors.now m work.old work.new }
{
    let zeros = none();
    let t = scales(f, &zeros, factors, m);
    let n = power(m);
    field::products::add_products(f, &t[..n], 0, 0, n, work);
}

// A list, and zeros behind it.
fn load(src: &[u16], work: &mut [u16])
    requires { length src.now ≤ length work.old }
    ensures { work.new ≡ src.now ++ drop (length src.now) (zeros (length work.old)) }
{
    clear(work);
    copy(src, work);
}

// The coefficients over the novel basis, behind room of their length.
pub fn novel_of(f: Field, steps: &[u16; 16], m: usize, coefficients: &[u16], work: &mut [u16])
    requires { Stepped f m steps.now × Below (2 ^ degree f.modulus) coefficients.now × (length coefficients.now ≡ 2 ^ m) × (2 ^ m + 2 ^ m ≤ length work.old) }
    ensures { NovelOf f.modulus steps.now m coefficients.now work.new }
{
    let n = coefficients.len();
    load(coefficients, work);
    from_powers(f, steps, m, &mut work[..n]);
    scale(f, steps, m, work);
}

// The coefficients of powers of x, behind those over the novel basis, in place of zeros.
pub fn powers_in(f: Field, steps: &[u16; 16], inverses: &[u16; 16], m: usize, work: &mut [u16])
    requires stepped { Stepped f m steps.now × Stepped f m inverses.now }
    requires below { Below (2 ^ degree f.modulus) work.old × (2 ^ m + 2 ^ m ≤ length work.old) × All IsZero (stretch (2 ^ m) (2 ^ m) work.old) }
    ensures { PowersOf f.modulus steps.now inverses.now m (take (2 ^ m) work.old) work.new }
{
    let n = power(m);
    let end = n + n;
    scale(f, inverses, m, work);
    to_powers(f, steps, m, &mut work[n..end]);
}

// The coefficients of powers of x, behind room of their length.
pub fn powers_of(
    f: Field,
    steps: &[u16; 16],
    inverses: &[u16; 16],
    m: usize,
    d: &[u16],
    work: &mut [u16],
)
    requires stepped { Stepped f m steps.now × Stepped f m inverses.now }
    requires below { Below (2 ^ degree f.modulus) d.now × (length d.now ≡ 2 ^ m) × (2 ^ m + 2 ^ m ≤ length work.old) }
    ensures { PowersOf f.modulus steps.now inverses.now m d.now work.new }
{
    load(d, work);
    powers_in(f, steps, inverses, m, work);
}
