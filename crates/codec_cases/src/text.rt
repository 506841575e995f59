// Cases as text. A case is a line of parts: its label, which a colon ends, then 0 to encode or 1 to
// decode, the modulus, the basis, the shift, the coefficients or the word, the length of the output and
// that of the scratch, which semicolons end. A space stands before each number.
ghost use Rattle.std.specs.Prelude.{◌≤◌, length};
ghost use Rattle.io.specs.Counts.{IsPrefixLen};

fn one_if(b: bool) -> usize
    ensures { result ≤ 1 }
{
    usize::from(b)
}

// The number n, or that of xs where n is more.
pub fn at_most(xs: &[u16], n: usize) -> usize
    ensures { IsPrefixLen result xs.now }
{
    if n <= xs.len() {
        return n;
    }
    xs.len()
}

fn is_mark(c: u8) -> bool {
    c == b':' || c == b';'
}

fn less(n: usize, m: usize) -> usize {
    if m <= n {
        return n - m;
    }
    0
}

// Where part k begins: after k marks.
pub fn place(line: &[u8], k: usize) -> usize
    ensures { result ≤ length line.now }
{
    let mut left = k;
    for (i, c) in line.iter().enumerate() {
        if left == 0 {
            return i;
        }
        left = less(left, one_if(is_mark(*c)));
    }
    line.len()
}

// The bytes from a place to another; none where these are not in order.
fn between(line: &[u8], from: usize, to: usize) -> &[u8] {
    if from <= to && to <= line.len() {
        return &line[from..to];
    }
    &line[..0]
}

// Part k, which is at most 7, with the mark that ends it.
pub fn part(line: &[u8], k: usize) -> &[u8] {
    between(line, place(line, k), place(line, k % 8 + 1))
}

// The number x with a digit behind it; a space starts another number.
fn next(x: u32, c: u8) -> u32 {
    if c == b' ' {
        return 0;
    }
    if is_mark(c) {
        return x;
    }
    x % 100000 * 10 + (c % 16) as u32
}

// The last number of a part.
pub fn decimal(part: &[u8]) -> u32 {
    part.iter().fold(0, |x, c| next(x, *c))
}

fn put(out: &mut [u16], i: usize, x: u32) {
    if i < out.len() {
        out[i] = (x % 65536) as u16;
    }
}

// The numbers of a part, and how many.
pub fn list(part: &[u8], out: &mut [u16]) -> usize
    ensures { IsPrefixLen result out.new }
{
    let mut x = 0;
    let mut n = 0;
    for c in part {
        x = next(x, *c);
        n += one_if(*c == b' ');
        put(out, less(n, 1), x);
    }
    at_most(out, n)
}
