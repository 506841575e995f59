// Copies of lists, and lanes. Lists of one length that stand one after the other are seen by lanes:
// lane r has number r of each list.
ghost use Rattle.std.specs.Prelude.{◌≡◌, ◌++◌, ℕ, ◌+◌, ◌*◌, ◌<◌, ◌≤◌, length, get_or, take, drop, replicate};
ghost use Rattle.lists.specs.Lanes.{lane, Strided};
ghost use Rattle.transform.specs.Slices.{Transposed};

// Copies src to the front of dst.
pub fn copy(src: &[u16], dst: &mut [u16])
    requires { length src.now ≤ length dst.old }
    ensures { dst.new ≡ src.now ++ drop (length src.now) dst.old }
{
    for (i, x) in src.iter().enumerate() {
        dst[i] = *x;
    }
}

// Copies the first n numbers after themselves.
pub fn copy_up(n: usize, values: &mut [u16])
    requires { n + n ≤ length values.old }
    ensures { values.new ≡ take n values.old ++ (take n values.old ++ drop (n + n) values.old) }
{
    for i in 0..n {
        values[n + i] = values[i];
    }
}

// Sets all of values to 0.
pub fn clear(values: &mut [u16])
    ensures { values.new ≡ replicate (length values.old) 0 }
{
    values.fill(0);
}

// Writes a list as lane r of lists of `rows` numbers each.
pub fn to_lane(from: &[u16], rows: usize, r: usize, to: &mut [u16])
    requires { (r < rows) × (length from.now * rows ≤ length to.old) }
    ensures { Strided rows r (length from.now) (λ (o : ℕ). get_or from.now o 0) to.old to.new }
{
    for (o, x) in from.iter().enumerate() {
        to[o * rows + r] = *x;
    }
}

// Reads lane r of lists of `rows` numbers each.
pub fn from_lane(from: &[u16], rows: usize, r: usize, to: &mut [u16])
    requires { (r < rows) × (length to.old * rows ≤ length from.now) }
    ensures { to.new ≡ lane rows r (length to.old) from.now }
{
    for (o, x) in to.iter_mut().enumerate() {
        *x = from[o * rows + r];
    }
}

// Writes `rows` lists of one size as lanes: list r becomes lane r.
pub fn transpose(from: &[u16], rows: usize, size: usize, to: &mut [u16])
    requires { (rows * size ≤ length from.now) × (rows * size ≤ length to.old) }
    ensures { Transposed rows size from.now to.old to.new }
{
    for r in 0..rows {
        to_lane(&from[r * size..r * size + size], rows, r, to);
    }
}
