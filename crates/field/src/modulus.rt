// Checks of a modulus and of symbols.
ghost use Rattle.std.specs.Prelude.{◌<◌, ◌≤◌, ◌^◌};
ghost use Rattle.lists.specs.All.{Below};
ghost use Rattle.lists.specs.Decides.{Decides};
ghost use Rattle.refusals.specs.Gives.{Gives};
ghost use Rattle.field.specs.Binary.{degree, Irreducible};
ghost use Rattle.field.specs.Products.{Sized};
ghost use Rattle.field.specs.Checks.{modulus_checks, FieldOf};
ghost use Rattle.field.specs.Ranges.{Largest};

use super::Field;
use super::division::{degree_of, divide};
use refusals::Refusal;

// Whether no polynomial of degree 1 to l/2 divides m. Where x does not, no multiple of x does.
fn irreducible(m: u32) -> bool
    requires { (8 ≤ m) × (m < 131072) }
    ensures { Decides result (Irreducible m) }
{
    if m % 2 == 0 {
        return false;
    }
    let end: u32 = 2 << (degree_of(m) / 2);
    // The odd numbers from 3 on. Compiled, `step_by` took a third longer.
    for i in 1..end / 2 {
        let t = divide(m, 2 * i + 1);
        if t.remainder == 0 {
            return false;
        }
    }
    true
}

// The field of a modulus that passed checks 1 and 2.
pub fn field_of(m: u32) -> Field
    requires { (8 ≤ m) × (m < 131072) }
    ensures { FieldOf m result }
{
    Field {
        modulus: m,
        degree: degree_of(m),
    }
}

// Checks 1 and 2 of a modulus: its field.
//
// Ruled out: a field for 21, which has no root; refusal 1 for 15.
pub fn check(m: u32) -> Result<Field, Refusal>
    ensures { Gives (modulus_checks m) (FieldOf m) result }
{
    if m < 8 || 131071 < m {
        return Err(Refusal::ModulusOutOfRange);
    }
    if irreducible(m) {
        return Ok(field_of(m));
    }
    Err(Refusal::ModulusReducible)
}

// Whether a is below 2^l.
pub fn is_symbol(f: Field, a: u16) -> bool
    requires { Sized f }
    ensures { Decides result (a < 2 ^ degree f.modulus) }
{
    let l = f.degree;
    (a as u32) >> l == 0
}

// The largest number of s, or 0.
fn largest(s: &[u16]) -> u16
    ensures { Largest s.now result }
{
    s.iter().copied().max().unwrap_or(0)
}

// Whether every number of s is below 2^l.
pub fn all_symbols(f: Field, s: &[u16]) -> bool
    requires { Sized f }
    ensures { Decides result (Below (2 ^ degree f.modulus) s.now) }
{
    is_symbol(f, largest(s))
}
