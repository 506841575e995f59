// What the readers of a stored file hand back.
ghost use Rattle.std.specs.Prelude.{◌≡◌, Result};
ghost use Rattle.stored.specs.Reader.{prefix_checks, file_checks, Told};
ghost use Rattle.refusals.specs.declared.Refusal.{Refusal};
ghost use Rattle.exports.specs.Places.{form_code, symbol_bytes, refused_place, place_of};

use refusals::Refusal;
use stored::{Form, Reading};

fn form_code(form: Form) -> u64
    ensures { result ≡ form_code form }
{
    match form {
        Form::One => 1,
        Form::Two => 2,
    }
}

fn symbol_bytes(narrow: bool) -> u64
    ensures { result ≡ symbol_bytes narrow }
{
    if narrow {
        return 1;
    }
    2
}

// The same of a file that is refused: its number, and zeros with form 1 and two bytes.
fn refused_place(e: Refusal, which: u32) -> u64
    ensures { result ≡ refused_place e which }
{
    match which {
        0 => u64::from(u8::from(e)),
        4 => 1,
        5 => 2,
        _ => 0,
    }
}

// A number by its place: the refusal, where the word, the proof and the end are, the form, the bytes
// of a symbol, and the shift.
fn place(reading: Result<Reading, Refusal>, which: u32) -> u64
    ensures { result ≡ place_of reading which }
{
    match reading {
        Ok(r) => {
            let setting = r.setting;
            match which {
                0 => 0,
                1 => r.word as u64,
                2 => r.proof as u64,
                3 => r.end as u64,
                4 => form_code(r.form),
                5 => symbol_bytes(r.narrow),
                _ => u64::from(setting.shift),
            }
        }
        Err(e) => refused_place(e, which),
    }
}

#[unsafe(no_mangle)]
pub extern "C" fn proximity_place(file: &[u8], which: u32) -> u64
    ensures { (r : Result Reading Refusal) × Told (file_checks file.now) file.now r × (result ≡ place_of r which) }
{
    place(stored::read(file), which)
}

// The same of the reader that lets bytes follow.
#[unsafe(no_mangle)]
pub extern "C" fn proximity_prefix_place(file: &[u8], which: u32) -> u64
    ensures { (r : Result Reading Refusal) × Told (prefix_checks file.now) file.now r × (result ≡ place_of r which) }
{
    place(stored::read_prefix(file), which)
}
