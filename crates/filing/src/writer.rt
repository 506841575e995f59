// The writer of a form: its checks, then the bytes.
ghost use Rattle.std.specs.Prelude.{◌≤◌};
ghost use Rattle.lists.specs.Answers.{Answers};
ghost use Rattle.refusals.specs.Gives.{Gives};
ghost use Rattle.refusals.specs.Refusal.{answer_of};
ghost use Rattle.field.specs.Binary.{degree};
ghost use Rattle.field.specs.Checks.{FieldOf};
ghost use Rattle.field.specs.Products.{Sized};
ghost use Rattle.space.specs.Sizes.{max_dim};
ghost use Rattle.stored.specs.File.{Carries};
ghost use Rattle.filing.specs.Writer.{length_checks, range_checks, writer_checks, Wrote};

use super::put;
use field::{Field, modulus};
use proximity::tables;
use refusals::Refusal;
use stored::{Form, forms};

// Check 6, of the lengths of word, proof and output.
fn check_lengths(
    form: Form,
    f: Field,
    k: usize,
    word: usize,
    proof: usize,
    out: usize,
) -> Result<(), Refusal>
    requires { Sized f × (k ≤ max_dim) }
    ensures { Answers (length_checks form (degree f.modulus) k word proof out) (answer_of result) }
{
    let p = forms::layout(form, f, k);
    if word != 1usize << k || proof != tables::proof_length(k) || out != p.end {
        return Err(Refusal::Length);
    }
    Ok(())
}

// Check 9, of all symbols.
fn check_range(f: Field, word: &[u16], proof: &[u16]) -> Result<(), Refusal>
    requires { Sized f }
    ensures { Answers (range_checks f.modulus word.now proof.now) (answer_of result) }
{
    if !modulus::all_symbols(f, word) || !modulus::all_symbols(f, proof) {
        return Err(Refusal::NoSymbol);
    }
    Ok(())
}

// Checks 1 to 6 and 9 of what is to be written into `out` bytes, and the field.
fn check(
    form: Form,
    modulus: u32,
    basis: &[u16],
    shift: u16,
    word: &[u16],
    proof: &[u16],
    out: usize,
) -> Result<Field, Refusal>
    ensures { Gives (writer_checks form modulus basis.now shift word.now proof.now out) (FieldOf modulus) result }
{
    let s = space::check(modulus, basis, shift)?;
    let f = s.field;
    check_lengths(form, f, basis.len(), word.len(), proof.len(), out)?;
    check_range(f, word, proof)?;
    Ok(f)
}

// Writes the file of a form, of a setting whose shift the form can carry.
pub fn write_form(
    form: Form,
    modulus: u32,
    basis: &[u16],
    shift: u16,
    word: &[u16],
    proof: &[u16],
    out: &mut [u8],
) -> Result<(), Refusal>
    requires { Carries form shift }
    ensures { Wrote form modulus basis.now shift word.now proof.now out.old out.new result }
{
    let f = check(form, modulus, basis, shift, word, proof, out.len())?;
    let p = forms::layout(form, f, basis.len());
    let second = p.word - 6;
    let third = p.proof - 6;
    put::put_setting(form, modulus, basis, shift, out);
    put::put_record(0x57, forms::word_mark(form), word, p.narrow, second, out);
    put::put_record(0x50, forms::proof_mark(form), proof, p.narrow, third, out);
    Ok(())
}
