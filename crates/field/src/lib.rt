// Arithmetic in GF(2^l). A polynomial over GF(2) is the number whose binary digits are its
// coefficients; a symbol is a number below 2^l.
#![tactic(auto)]

pub mod division;
pub mod inverse;
pub mod modulus;
pub mod products;

ghost use Rattle.refusals.specs.Gives.{Gives};
ghost use Rattle.field.specs.Binary.{◌⊕◌, product};
ghost use Rattle.field.specs.Calls.{field_checks, Told};
ghost use Rattle.field.specs.Checks.{FieldOf};

use modulus::is_symbol;
use products::mul;
use refusals::Refusal;

// A field by its modulus, and the modulus's degree.
#[derive(Clone, Copy)]
pub struct Field {
    pub modulus: u32,
    pub degree: u32,
}

// Checks 1, 2 and 9 of a modulus and two numbers: their field.
fn check_pair(modulus: u32, a: u16, b: u16) -> Result<Field, Refusal>
    ensures { Gives (field_checks modulus a b) (FieldOf modulus) result }
{
    let f = modulus::check(modulus)?;
    if is_symbol(f, a) && is_symbol(f, b) {
        return Ok(f);
    }
    Err(Refusal::NoSymbol)
}

// The sum of two symbols.
//
// Ruled out: 3 for 3 + 3; refusal 9 for the modulus 15.
pub fn sum(modulus: u32, a: u16, b: u16) -> Result<u16, Refusal>
    ensures { Told (field_checks modulus a b) (a ⊕ b) result }
{
    check_pair(modulus, a, b)?;
    Ok(a ^ b)
}

// The product of two symbols.
//
// Ruled out: 8, the product that is not reduced, for 2 times 4 modulo 11; a product where 8 is a
// factor, which is no symbol modulo 11.
pub fn product(modulus: u32, a: u16, b: u16) -> Result<u16, Refusal>
    ensures { Told (field_checks modulus a b) (product modulus a b) result }
{
    let f = check_pair(modulus, a, b)?;
    Ok(mul(f, a, b))
}
