// The public calls for programs in other languages, used by the tests and the benchmark. An answer
// is one number: a definition in specs/Codes.antt says which.
#![tactic(auto)]

mod files;
mod places;

ghost use Rattle.std.specs.Prelude.{◌≡◌, Result, ℕ};
ghost use Rattle.field.specs.Binary.{◌⊕◌, product};
ghost use Rattle.field.specs.Calls.{field_checks, Told};
ghost use Rattle.codec.specs.Calls.{Encoded, Decoded};
ghost use Rattle.correction.specs.Calls.{CorrectedWord};
ghost use Rattle.prover.specs.Calls.{Proven};
ghost use Rattle.field.specs.Products.{Sized};
ghost use Rattle.lists.specs.Answers.{Answers};
ghost use Rattle.space.specs.Setting.{setting_checks};
ghost use Rattle.verifier.specs.Checker;
ghost use Rattle.exports.specs.Lists.{list_checks, product_checks, Added};
ghost use Rattle.refusals.specs.Refusal.{answer_of};
ghost use Rattle.exports.specs.Codes.{count_code, value_code, verdict_code};

use field::Field;
use field::modulus::all_symbols;
use refusals::Refusal;
use verifier::Verdict;

// 0, or the number of the refusal.
fn answer_code(r: Result<(), Refusal>) -> u32
    ensures { result ≡ answer_of r }
{
    match r {
        Ok(()) => 0,
        Err(e) => u32::from(u8::from(e)),
    }
}

fn value_code(v: Result<u16, Refusal>) -> u32
    ensures { result ≡ value_code v }
{
    match v {
        Ok(x) => u32::from(x),
        Err(e) => 65536 + u32::from(u8::from(e)),
    }
}

fn verdict_code(v: Result<Verdict, Refusal>) -> u64
    ensures { result ≡ verdict_code v }
{
    match v {
        Ok(Verdict::Accept(n)) => n as u64 % 65536,
        Ok(Verdict::Reject(r)) => {
            65536
                + r.reads as u64 % 65536
                + r.degree as u64 % 65536 * 4294967296
                + r.dimension as u64 % 65536 * 281474976710656
        }
        Err(e) => 131072 + u64::from(u8::from(e)),
    }
}

// A number of at most 16 bits; or 65536 and the number of the refusal.
fn count_code(c: Result<usize, Refusal>) -> u32
    ensures { result ≡ count_code c }
{
    match c {
        Ok(n) => (n % 65536) as u32,
        Err(e) => 65536 + u32::from(u8::from(e)),
    }
}

#[unsafe(no_mangle)]
pub extern "C" fn proximity_sum(modulus: u32, a: u16, b: u16) -> u32
    ensures { (v : Result ℕ Refusal) × Told (field_checks modulus a b) (a ⊕ b) v × (result ≡ value_code v) }
{
    value_code(field::sum(modulus, a, b))
}

#[unsafe(no_mangle)]
pub extern "C" fn proximity_product(modulus: u32, a: u16, b: u16) -> u32
    ensures { (v : Result ℕ Refusal) × Told (field_checks modulus a b) (product modulus a b) v × (result ≡ value_code v) }
{
    value_code(field::product(modulus, a, b))
}

// Checks 6 and 9 of two lists.
fn check_lists(f: Field, factors: &[u16], values: &[u16]) -> Result<(), Refusal>
    requires { Sized f }
    ensures { Answers (list_checks f.modulus factors.now values.now) (answer_of result) }
{
    if values.len() / 2 != factors.len() {
        return Err(Refusal::Length);
    }
    if !all_symbols(f, factors) || !all_symbols(f, values) {
        return Err(Refusal::NoSymbol);
    }
    Ok(())
}

// Checks 1, 2, 6 and 9, then the products of the factors and the second half of the values, added to the first half.
fn add(modulus: u32, factors: &[u16], values: &mut [u16]) -> Result<(), Refusal>
    ensures { Answers (product_checks modulus factors.now values.old) (answer_of result) × Added modulus factors.now values.old values.new (answer_of result) }
{
    let f = field::modulus::check(modulus)?;
    check_lists(f, factors, values)?;
    let n = factors.len();
    field::products::add_products(f, factors, 0, n, 0, values);
    Ok(())
}

// Adds the products of the factors and the second half of the values to the first half.
#[unsafe(no_mangle)]
pub extern "C" fn proximity_products(modulus: u32, factors: &[u16], values: &mut [u16]) -> u32
    ensures { Answers (product_checks modulus factors.now values.old) result × Added modulus factors.now values.old values.new result }
{
    answer_code(add(modulus, factors, values))
}

#[unsafe(no_mangle)]
pub extern "C" fn proximity_setting(modulus: u32, basis: &[u16], shift: u16) -> u32
    ensures { Answers (setting_checks modulus basis.now shift) result }
{
    match space::check(modulus, basis, shift) {
        Ok(_) => 0,
        Err(e) => u32::from(u8::from(e)),
    }
}

#[unsafe(no_mangle)]
pub extern "C" fn proximity_check<'a>(
    modulus: u32,
    basis: &[u16],
    shift: u16,
    word: &'a [u16],
    proof: &'a [u16],
    coin: u64,
) -> u64
    ensures { (v : Result Verdict Refusal) × Checker.Told modulus basis.now shift word.now proof.now coin v × (result ≡ verdict_code v) }
{
    verdict_code(verifier::check(modulus, basis, shift, word, proof, coin))
}

#[unsafe(no_mangle)]
pub extern "C" fn proximity_encode(
    modulus: u32,
    basis: &[u16],
    shift: u16,
    coefficients: &[u16],
    word: &mut [u16],
    scratch: &mut [u16],
) -> u32
    ensures { (o : Result (Unit {0}) Refusal) × Encoded modulus basis.now shift coefficients.now word.old word.new scratch.old scratch.new o × (result ≡ answer_of o) }
{
    answer_code(codec::encode(modulus, basis, shift, coefficients, word, scratch))
}

#[unsafe(no_mangle)]
pub extern "C" fn proximity_decode(
    modulus: u32,
    basis: &[u16],
    shift: u16,
    word: &[u16],
    coefficients: &mut [u16],
    scratch: &mut [u16],
) -> u32
    ensures { (o : Result (Unit {0}) Refusal) × Decoded modulus basis.now shift word.now coefficients.old coefficients.new scratch.old scratch.new o × (result ≡ answer_of o) }
{
    answer_code(codec::decode(modulus, basis, shift, word, coefficients, scratch))
}

#[unsafe(no_mangle)]
pub extern "C" fn proximity_prove(
    modulus: u32,
    basis: &[u16],
    shift: u16,
    word: &[u16],
    proof: &mut [u16],
    scratch: &mut [u16],
) -> u32
    ensures { (o : Result (Unit {0}) Refusal) × Proven modulus basis.now shift word.now proof.old proof.new scratch.old scratch.new o × (result ≡ answer_of o) }
{
    answer_code(prover::prove(modulus, basis, shift, word, proof, scratch))
}

#[unsafe(no_mangle)]
pub extern "C" fn proximity_correct(
    modulus: u32,
    basis: &[u16],
    shift: u16,
    word: &[u16],
    corrected: &mut [u16],
    scratch: &mut [u16],
) -> u64
    ensures { (c : Result ℕ Refusal) × CorrectedWord modulus basis.now shift word.now corrected.old corrected.new scratch.old scratch.new c × (result ≡ count_code c) }
{
    u64::from(count_code(correction::correct(modulus, basis, shift, word, corrected, scratch)))
}
