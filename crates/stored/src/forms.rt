// What the two forms of a stored file differ in, and where the parts of a file stand.
ghost use Rattle.std.specs.Prelude.{◌≡◌, ◌≤◌, ◌<◌};
ghost use Rattle.field.specs.Binary.{degree};
ghost use Rattle.field.specs.Products.{Sized};
ghost use Rattle.space.specs.Sizes.{max_dim};
ghost use Rattle.stored.specs.Bytes.{packed_size};
ghost use Rattle.stored.specs.File.{setting_mark, word_mark, proof_mark, narrow_of, word_record_at, layout_of, form_in};

use super::{Form, Layout};
use field::Field;
use proximity::tables;

// The form of a file, by its first mark. What does not begin as form 2 is taken for form 1.
pub fn form_of(file: &[u8]) -> Form
    ensures { result ≡ form_in file.now }
{
    if file.len() < 2 {
        return Form::One;
    }
    if file[1] == 0x32 {
        return Form::Two;
    }
    Form::One
}

// The second byte of the setting's mark.
pub fn setting_mark(form: Form) -> u8
    ensures { result ≡ setting_mark form }
{
    match form {
        Form::One => 0x45,
        Form::Two => 0x32,
    }
}

// The second byte of the word's mark.
pub fn word_mark(form: Form) -> u8
    ensures { result ≡ word_mark form }
{
    match form {
        Form::One => 0x4F,
        Form::Two => 0x32,
    }
}

// The second byte of the proof's mark.
pub fn proof_mark(form: Form) -> u8
    ensures { result ≡ proof_mark form }
{
    match form {
        Form::One => 0x46,
        Form::Two => 0x32,
    }
}

// How many bytes the setting's record has.
pub fn setting_size(form: Form, k: usize) -> usize
    requires { k < 256 }
    ensures { result ≡ word_record_at form k }
{
    match form {
        Form::One => 7 + 2 * k,
        Form::Two => 9 + 2 * k,
    }
}

// Whether the symbols of a field take one byte each.
fn is_narrow(form: Form, f: Field) -> bool
    requires { Sized f }
    ensures { result ≡ narrow_of form (degree f.modulus) }
{
    let l = f.degree;
    match form {
        Form::One => false,
        Form::Two => l < 9,
    }
}

// How many bytes n numbers take.
pub fn packed_size(narrow: bool, n: usize) -> usize
    requires { n < 4294967296 }
    ensures { result ≡ packed_size narrow n }
{
    if narrow {
        return n;
    }
    2 * n
}

// Where word and proof stand in a file of dimension k, and where it ends.
pub fn layout(form: Form, f: Field, k: usize) -> Layout
    requires { Sized f × (k ≤ max_dim) }
    ensures { result ≡ layout_of form (degree f.modulus) k }
{
    let narrow = is_narrow(form, f);
    let n = 1usize << k;
    let word = setting_size(form, k) + 6;
    let proof = word + packed_size(narrow, n) + 6;
    let end = proof + packed_size(narrow, tables::proof_length(k));
    Layout {
        narrow,
        word,
        proof,
        end,
    }
}
