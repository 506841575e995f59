// Stored files written: from a setting, a word and a proof, and from a file of the other form.
#![tactic(auto)]

mod conversion;
mod put;
pub mod writer;

ghost use Rattle.stored.specs.declared.Form.TheVariants.{One, Two};
ghost use Rattle.filing.specs.Convert.{Converted, LengthTold};
ghost use Rattle.filing.specs.Writer.{Wrote};

use refusals::Refusal;
use stored::{Form, forms};

// Writes the file of form 1 of a setting with the shift 0, a word and a proof: checks 1 to 6 and 9,
// then the bytes.
//
// Ruled out: a file of another modulus; a file with another mark, which no reader takes.
pub fn write(
    modulus: u32,
    basis: &[u16],
    word: &[u16],
    proof: &[u16],
    out: &mut [u8],
) -> Result<(), Refusal>
    ensures { Wrote One modulus basis.now 0 word.now proof.now out.old out.new result }
{
    writer::write_form(Form::One, modulus, basis, 0, word, proof, out)
}

// Writes the file of form 2 of a setting, a word and a proof: checks 1 to 6 and 9, then the bytes.
//
// Ruled out: two bytes for a symbol where l is 8, or one where l is 9; a file with another shift.
pub fn write_form_two(
    modulus: u32,
    basis: &[u16],
    shift: u16,
    word: &[u16],
    proof: &[u16],
    out: &mut [u8],
) -> Result<(), Refusal>
    ensures { Wrote Two modulus basis.now shift word.now proof.now out.old out.new result }
{
    writer::write_form(Form::Two, modulus, basis, shift, word, proof, out)
}

// How many bytes a stored file has in the other form: the file's checks, then 14 for a file of form 2
// with another shift than 0.
//
// Ruled out: the length of the file itself; 14 for a refused file.
pub fn converted_length(file: &[u8]) -> Result<usize, Refusal>
    ensures { LengthTold file.now result }
{
    let r = stored::read(file)?;
    let setting = r.setting;
    if setting.shift != 0 {
        return Err(Refusal::Shifted);
    }
    let p = forms::layout(
        conversion::other_form(r.form),
        setting.field,
        setting.space.k,
    );
    Ok(p.end)
}

// Writes a stored file in the other form: the file's checks, 14 for a file of form 2 with another
// shift than 0, 6 for an output of another length; then the bytes.
//
// Ruled out: 6 for a shift other than 0, since 14 comes first; a file in an output that is longer.
pub fn convert(file: &[u8], out: &mut [u8]) -> Result<(), Refusal>
    ensures { Converted file.now out.old out.new result }
{
    let length = converted_length(file)?;
    if out.len() != length {
        return Err(Refusal::Length);
    }
    conversion::copy(file, out);
    Ok(())
}
