// The checks of a message file, front to back.
ghost use Rattle.std.specs.Prelude.{◌≤◌, length};
ghost use Rattle.lists.specs.Answers.{Answers};
ghost use Rattle.refusals.specs.Refusal.{answer_of};
ghost use Rattle.field.specs.Binary.{degree};
ghost use Rattle.field.specs.Products.{Sized};
ghost use Rattle.space.specs.Setting.{SettledBy};
ghost use Rattle.space.specs.Sizes.{max_dim};
ghost use Rattle.stored.specs.File.{modulus_in, basis_in, shift_in};
ghost use Rattle.stored.specs.Reader.{SettingRead};
ghost use Rattle.delivery.specs.Message.{coefficient_record_at, room_checks, coefficient_checks, rest_checks, message_checks};

use field::Field;
use novel::convert::power;
use refusals::Refusal;
use space::Setting;
use stored::{Form, forms, records};

// Check 6, of a stored file of `end` bytes.
fn check_room(end: usize, room: usize) -> Result<(), Refusal>
    ensures { Answers (room_checks end room) (answer_of result) }
{
    if stored::FILE_LIMIT < end || room < end {
        return Err(Refusal::Length);
    }
    Ok(())
}

// The checks of the coefficient record, then 12 where bytes follow it.
fn check_coefficients(form: Form, f: Field, message: &[u8], k: usize) -> Result<(), Refusal>
    requires { Sized f × (3 ≤ k) × (k ≤ max_dim) × (coefficient_record_at form k ≤ length message.now) }
    ensures { Answers (coefficient_checks form message.now k (degree f.modulus)) (answer_of result) }
{
    let n = power(k - 3);
    let at = forms::setting_size(form, k);
    records::check_record(f, message, at, 0x43, 0x4F, false, n)?;
    if at + 6 + 2 * n < message.len() {
        return Err(Refusal::WrongCount);
    }
    Ok(())
}

// The checks past the setting record, with room bytes for the stored file.
fn check_rest(message: &[u8], setting: Setting, room: usize) -> Result<(), Refusal>
    requires { SettingRead message.now setting }
    ensures { Answers (rest_checks message.now room) (answer_of result) }
{
    let form = forms::form_of(message);
    let f = setting.field;
    let k = setting.space.k;
    let p = forms::layout(form, f, k);
    check_room(p.end, room)?;
    check_coefficients(form, f, message, k)
}

// The setting of a message, with room bytes for its stored file.
pub fn check(message: &[u8], room: usize) -> Result<Setting, Refusal>
    ensures { SettledBy (message_checks message.now room) (modulus_in message.now) (basis_in message.now) (shift_in message.now) result }
{
    let setting = records::setting_of(message)?;
    check_rest(message, setting, room)?;
    Ok(setting)
}
