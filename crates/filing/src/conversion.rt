// From one form to the other: the records of a file, read and written one after the other.
ghost use Rattle.std.specs.Prelude.{◌≡◌, ◌+◌, ◌*◌, ◌≤◌, ◌<◌, length};
ghost use Rattle.lists.specs.Answers.{Passes};
ghost use Rattle.space.specs.Sizes.{max_dim};
ghost use Rattle.stored.specs.File.{setting_record, word_record_at, modulus_in, dim_in, basis_in};
ghost use Rattle.filing.specs.Convert.{other, converted, convert_checks};
ghost use Rattle.filing.specs.Put.{Put};

use super::put;
use field::modulus::field_of;
use proximity::tables;
use stored::{Form, bytes, forms, records};

// The other form.
pub fn other_form(form: Form) -> Form
    ensures { result ≡ other form }
{
    match form {
        Form::One => Form::Two,
        Form::Two => Form::One,
    }
}

// The setting record in the form `to`, with the shift 0.
fn copy_setting(file: &[u8], to: Form, k: usize, out: &mut [u8])
    requires { (k ≤ max_dim) × (7 + 2 * k ≤ length file.now) × (k ≡ dim_in file.now) × (word_record_at to k ≤ length out.old) }
    ensures { Put 0 (setting_record to (modulus_in file.now) (basis_in file.now) 0) out.old out.new }
{
    let modulus = bytes::four_at(file, 2);
    let basis = records::basis_at(file, k);
    put::put_setting(to, modulus, &basis[..k], 0, out);
}

// The file of the other form, of a file that may be converted.
pub fn copy(file: &[u8], out: &mut [u8])
    requires { Passes (convert_checks file.now (length out.old)) }
    ensures { out.new ≡ converted file.now }
{
    let form = forms::form_of(file);
    let to = other_form(form);
    let k = file[6] as usize;
    let f = field_of(bytes::four_at(file, 2));
    let from = forms::layout(form, f, k);
    let p = forms::layout(to, f, k);
    copy_setting(file, to, k, out);
    let n = 1usize << k;
    let word = p.word - 6;
    put::copy_record(
        0x57,
        forms::word_mark(to),
        file,
        from.word,
        from.narrow,
        n,
        p.narrow,
        word,
        out,
    );
    let s = tables::proof_length(k);
    let proof = p.proof - 6;
    put::copy_record(
        0x50,
        forms::proof_mark(to),
        file,
        from.proof,
        from.narrow,
        s,
        p.narrow,
        proof,
        out,
    );
}
