// Numbers and records written into bytes.
ghost use Rattle.std.specs.Prelude.{[], ◌∷◌, ◌+◌, ◌≤◌, ◌<◌, length};
ghost use Rattle.lists.specs.All.{Below};
ghost use Rattle.stored.specs.Bytes.{two_bytes, four_bytes, packed, packed_size, numbers_at};
ghost use Rattle.stored.specs.File.{shift_bytes, setting_record, symbol_record, word_record_at};
ghost use Rattle.stored.specs.Packed.{number_top};
ghost use Rattle.filing.specs.Put.{Put};

use stored::{Form, bytes, forms};

// A two-byte number at index at.
fn put_two(x: u16, at: usize, out: &mut [u8])
    requires { at + 2 ≤ length out.old }
    ensures { Put at (two_bytes x) out.old out.new }
{
    out[at] = (x % 256) as u8;
    out[at + 1] = (x / 256) as u8;
}

// A mark and a four-byte number at index at.
fn put_head(first: u8, second: u8, x: u32, at: usize, out: &mut [u8])
    requires { at + 6 ≤ length out.old }
    ensures { Put at (first ∷ second ∷ four_bytes x) out.old out.new }
{
    out[at] = first;
    out[at + 1] = second;
    put_two((x % 65536) as u16, at + 2, out);
    put_two((x / 65536) as u16, at + 4, out);
}

// Number i of those that begin at index at, one byte each or two.
fn put_number(x: u16, narrow: bool, at: usize, i: usize, out: &mut [u8])
    requires { (at + packed_size narrow (i + 1) ≤ length out.old) × (x < number_top narrow) }
    ensures { Put (at + packed_size narrow i) (packed narrow (x ∷ [])) out.old out.new }
{
    if narrow {
        out[at + i] = (x % 256) as u8;
    } else {
        put_two(x, at + 2 * i, out);
    }
}

// Numbers from index at on.
fn put_numbers(xs: &[u16], narrow: bool, at: usize, out: &mut [u8])
    requires { (at + packed_size narrow (length xs.now) ≤ length out.old) × Below (number_top narrow) xs.now }
    ensures { Put at (packed narrow xs.now) out.old out.new }
{
    for (i, x) in xs.iter().enumerate() {
        put_number(*x, narrow, at, i, out);
    }
}

// The shift at index at, in form 2.
fn put_shift(form: Form, shift: u16, at: usize, out: &mut [u8])
    requires { at + length (shift_bytes form shift) ≤ length out.old }
    ensures { Put at (shift_bytes form shift) out.old out.new }
{
    match form {
        Form::One => {}
        Form::Two => put_two(shift, at, out),
    }
}

// A setting record at the front.
pub fn put_setting(form: Form, modulus: u32, basis: &[u16], shift: u16, out: &mut [u8])
    requires { (length basis.now < 256) × (word_record_at form (length basis.now) ≤ length out.old) }
    ensures { Put 0 (setting_record form modulus basis.now shift) out.old out.new }
{
    let k = basis.len();
    put_head(0x53, forms::setting_mark(form), modulus, 0, out);
    out[6] = k as u8;
    put_numbers(basis, false, 7, out);
    put_shift(form, shift, 7 + 2 * k, out);
}

// A record of symbols at index at.
pub fn put_record(first: u8, second: u8, xs: &[u16], narrow: bool, at: usize, out: &mut [u8])
    requires { (length xs.now < 4294967296) × (at + 6 + packed_size narrow (length xs.now) ≤ length out.old) × Below (number_top narrow) xs.now }
    ensures { Put at (symbol_record narrow first second xs.now) out.old out.new }
{
    put_head(first, second, xs.len() as u32, at, out);
    put_numbers(xs, narrow, at + 6, out);
}

// The count numbers that stand in a file at index from, from index at on.
fn copy_numbers(
    file: &[u8],
    from: usize,
    narrow: bool,
    count: usize,
    target: bool,
    at: usize,
    out: &mut [u8],
)
    requires { (from + packed_size narrow count ≤ length file.now) × (at + packed_size target count ≤ length out.old) × Below (number_top target) (numbers_at narrow file.now from count) }
    ensures { Put at (packed target (numbers_at narrow file.now from count)) out.old out.new }
{
    for i in 0..count {
        let x = bytes::number_at(file, from, narrow, i);
        put_number(x, target, at, i, out);
    }
}

// A record of such numbers at index at.
pub fn copy_record(
    first: u8,
    second: u8,
    file: &[u8],
    from: usize,
    narrow: bool,
    count: usize,
    target: bool,
    at: usize,
    out: &mut [u8],
)
    requires { (count < 4294967296) × (from + packed_size narrow count ≤ length file.now) × (at + 6 + packed_size target count ≤ length out.old) × Below (number_top target) (numbers_at narrow file.now from count) }
    ensures { Put at (symbol_record target first second (numbers_at narrow file.now from count)) out.old out.new }
{
    put_head(first, second, count as u32, at, out);
    copy_numbers(file, from, narrow, count, target, at + 6, out);
}
