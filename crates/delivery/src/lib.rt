// A delivery from end to end: a message file of a setting and coefficients becomes the stored file of
// their word and its proof, in the form of the message.
#![tactic(auto)]

mod checks;
mod parts;

ghost use Rattle.delivery.specs.Message.{Told};

use refusals::Refusal;
use stored::forms;

// Writes the stored file of a message file to the front of the output: how many bytes it has.
//
// Ruled out: a file whose proof is not that of the word of the message's coefficients at its shift; a
// file of the other form; an output that is changed past the bytes written, or by a refused call.
pub fn make(message: &[u8], out: &mut [u8]) -> Result<usize, Refusal>
    ensures { Told message.now out.old out.new result }
{
    let setting = checks::check(message, out.len())?;
    let form = forms::form_of(message);
    let p = forms::layout(form, setting.field, setting.space.k);
    let end = p.end;
    parts::write_file(message, setting, &mut out[..end]);
    Ok(end)
}
