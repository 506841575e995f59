// Numbers in bytes, lowest byte first.
ghost use Rattle.std.specs.Prelude.{◌≡◌, ◌+◌, ◌≤◌, ◌<◌, length};
ghost use Rattle.lists.specs.Decides.{Decides};
ghost use Rattle.field.specs.Ranges.{Largest};
ghost use Rattle.stored.specs.Bytes.{packed_size, two_at, four_at, number_at, numbers_at};
ghost use Rattle.stored.specs.File.{Opens};

// The two-byte number at index at.
pub fn two_at(file: &[u8], at: usize) -> u16
    requires { at + 2 ≤ length file.now }
    ensures { result ≡ two_at file.now at }
{
    file[at] as u16 + 256 * (file[at + 1] as u16)
}

// The four-byte number at index at.
pub fn four_at(file: &[u8], at: usize) -> u32
    requires { at + 4 ≤ length file.now }
    ensures { result ≡ four_at file.now at }
{
    two_at(file, at) as u32 + 65536 * (two_at(file, at + 2) as u32)
}

// Whether size bytes stand at index at, and the first two are the mark.
pub fn opens(file: &[u8], at: usize, size: usize, first: u8, second: u8) -> bool
    requires { (at ≤ length file.now) × (2 ≤ size) }
    ensures { Decides result (Opens file.now at size first second) }
{
    if file.len() - at < size {
        return false;
    }
    if file[at] != first {
        return false;
    }
    if file[at + 1] != second {
        return false;
    }
    true
}

// Number i of those that stand at index at, one byte each or two.
pub fn number_at(file: &[u8], at: usize, narrow: bool, i: usize) -> u16
    requires { at + packed_size narrow (i + 1) ≤ length file.now }
    ensures { result ≡ number_at narrow file.now at i }
{
    if narrow {
        return file[at + i] as u16;
    }
    two_at(file, at + 2 * i)
}

// The numbers that stand at index at.
pub fn numbers_at(file: &[u8], at: usize, narrow: bool, out: &mut [u16])
    requires { at + packed_size narrow (length out.old) ≤ length file.now }
    ensures { out.new ≡ numbers_at narrow file.now at (length out.old) }
{
    for (i, x) in out.iter_mut().enumerate() {
        *x = number_at(file, at, narrow, i);
    }
}

// The largest of count numbers that stand at index at, or 0.
pub fn largest(file: &[u8], at: usize, narrow: bool, count: usize) -> u16
    requires { at + packed_size narrow count ≤ length file.now }
    ensures { Largest (numbers_at narrow file.now at count) result }
{
    let mut top: u16 = 0;
    for i in 0..count {
        let x = number_at(file, at, narrow, i);
        top = if top < x { x } else { top };
    }
    top
}
