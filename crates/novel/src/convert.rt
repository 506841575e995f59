// Between coefficients of powers of x and those of the products of W_j over the one bits j of a
// coefficient's number. W_j has the powers x^(2^i) alone, i at most j, so a product with it or a
// division by it takes j additions of a multiple. To powers also from the products of x^(2^j) plus a
// number, which are those of a shift: one addition.
ghost use Rattle.std.specs.Prelude.{◌≡◌, true, false, ◌+◌, ◌/◌, ◌^◌, ◌≤◌, ◌<◌, length};
ghost use Rattle.space.specs.Sizes.{max_dim};
ghost use Rattle.lists.specs.All.{Below};
ghost use Rattle.field.specs.Binary.{degree, Irreducible};
ghost use Rattle.field.specs.Products.{Sized};
ghost use Rattle.novel.specs.Sparse.{Sparse, zero_cells};
ghost use Rattle.novel.specs.Convert.{value_by, shifted_by, factor_by, Tabled, Zeros, Folded, Expanded, Monomials};
ghost use Rattle.novel.specs.Scales.{Scales, zero_room};

use field::Field;
use space::{MAX, MAX_WORD};

// The table of the subspace polynomials W_0 to W_MAX: a row of MAX places for each.
pub const TABLE: usize = MAX * (MAX + 1);

// From a place of the table to the next place of the next row.
const DIAGONAL: usize = MAX + 1;

// Zeros for half of the longest word.
pub fn none() -> [u16; MAX_WORD / 2]
    ensures { Zeros result }
{
    [0u16; MAX_WORD / 2]
}

// 2^j.
pub fn power(j: usize) -> usize
    requires { j ≤ max_dim }
    ensures { result ≡ 2 ^ j }
{
    1usize << j
}

pub fn cells() -> [u16; TABLE]
    ensures { result ≡ zero_cells }
{
    [0u16; TABLE]
}

// At MAX * j + i the coefficient of x^(2^i) in W_j, j below count: W_0 = x, and W_(j+1) is the
// square of W_j and the product of W_j with the step of number j.
pub fn table(f: Field, steps: &[u16; 16], count: usize) -> [u16; TABLE]
    requires { Sized f × Irreducible f.modulus × (count ≤ max_dim + 1) × Below (2 ^ degree f.modulus) steps.now }
    ensures { Sparse f.modulus steps.now count result }
{
    let mut t = cells();
    t[0] = 1;
    t[MAX] = field::products::mul(f, steps[0], 1);
    for next in DIAGONAL..MAX * count {
        let p = next - DIAGONAL;
        let w = t[p];
        let s = steps[(p + 1) / MAX];
        let a = field::products::mul(f, s, t[p + 1]);
        t[next] = a ^ field::products::mul(f, w, w);
    }
    t
}

// Adds (W_j - x^(2^j)) * x^at times the 2^j / 2 coefficients at `at + 2^j`.
fn fold(f: Field, none: &[u16], table: &[u16; TABLE], j: usize, at: usize, values: &mut [u16])
    requires { Tabled false f none.now table.now (j + 1) × Below (2 ^ degree f.modulus) values.old × (at + 2 ^ j + 2 ^ j / 2 ≤ length values.old) }
    ensures { Folded f.modulus table.now j j at values.old values.new }
{
    let half = power(j);
    for i in 0..j {
        let p = power(i);
        field::products::add_products(
            f,
            &none[..half / 2],
            table[MAX * j + i],
            at + half,
            at + p,
            values,
        );
    }
}

// Low + W_j * high, of the two halves of 2^(j+1) coefficients.
fn expand(f: Field, none: &[u16], table: &[u16; TABLE], j: usize, values: &mut [u16])
    requires { Tabled false f none.now table.now (j + 1) × Below (2 ^ degree f.modulus) values.old × (length values.old ≡ 2 ^ j + 2 ^ j) }
    ensures { Expanded f.modulus (value_by f.modulus table.now) j values.old values.new }
{
    fold(f, none, table, j, 0, values);
    fold(f, none, table, j, power(j) / 2, values);
}

// Division by W_j: the remainder becomes low, the quotient high.
fn divide(f: Field, none: &[u16], table: &[u16; TABLE], j: usize, values: &mut [u16])
    requires { Tabled false f none.now table.now (j + 1) × Below (2 ^ degree f.modulus) values.old × (length values.old ≡ 2 ^ j + 2 ^ j) }
    ensures { Expanded f.modulus (value_by f.modulus table.now) j values.new values.old }
{
    fold(f, none, table, j, power(j) / 2, values);
    fold(f, none, table, j, 0, values);
}

// Low + (x^(2^j) + c) * high, of the two halves of 2^(j+1) coefficients, c being entry j of the table.
fn add_high(f: Field, none: &[u16], table: &[u16; TABLE], j: usize, values: &mut [u16])
    requires { Tabled true f none.now table.now (j + 1) × Below (2 ^ degree f.modulus) values.old × (length values.old ≡ 2 ^ j + 2 ^ j) }
    ensures { Expanded f.modulus (shifted_by f.modulus table.now) j values.old values.new }
{
    let half = power(j);
    field::products::add_products(f, &none[..half], table[j], half, 0, values);
}

// To coefficients of powers of x, from those of products of W_j; or, shifted, from those of products of
// x^(2^j) plus entry j of the table.
pub fn to_monomials(
    f: Field,
    none: &[u16],
    table: &[u16; TABLE],
    shifted: bool,
    m: usize,
    values: &mut [u16],
)
    requires { Tabled shifted f none.now table.now m × Below (2 ^ degree f.modulus) values.old × (length values.old ≡ 2 ^ m) }
    ensures { Monomials f.modulus (factor_by shifted f.modulus table.now) m values.old values.new }
{
    if m == 0 {
        return;
    }
    let j = m - 1;
    let n = values.len() / 2;
    to_monomials(f, none, table, shifted, j, &mut values[..n]);
    to_monomials(f, none, table, shifted, j, &mut values[n..]);
    if shifted {
        add_high(f, none, table, j, values);
        return;
    }
    expand(f, none, table, j, values);
}

// From coefficients of powers of x, to those of products of W_j.
pub fn from_monomials(f: Field, none: &[u16], table: &[u16; TABLE], m: usize, values: &mut [u16])
    requires { Tabled false f none.now table.now m × Below (2 ^ degree f.modulus) values.old × (length values.old ≡ 2 ^ m) }
    ensures { Monomials f.modulus (value_by f.modulus table.now) m values.new values.old }
{
    if m == 0 {
        return;
    }
    let j = m - 1;
    let n = values.len() / 2;
    divide(f, none, table, j, values);
    from_monomials(f, none, table, j, &mut values[..n]);
    from_monomials(f, none, table, j, &mut values[n..]);
}

fn room() -> [u16; MAX_WORD]
    ensures { result ≡ zero_room }
{
    [0u16; MAX_WORD]
}

// The product of steps[j] over the one bits j of i, at each i below 2^m.
pub fn scales(f: Field, none: &[u16], steps: &[u16; 16], m: usize) -> [u16; MAX_WORD]
    requires { Sized f × Irreducible f.modulus × (m ≤ max_dim) × Below (2 ^ degree f.modulus) steps.now × Zeros none.now }
    ensures { Scales f.modulus steps.now m result }
{
    let mut out = room();
    out[0] = 1;
    for j in 0..m {
        let n = power(j);
        field::products::add_products(f, &none[..n], steps[j], 0, n, &mut out);
    }
    out
}
