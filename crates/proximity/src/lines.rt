// The rows and the columns of the layout, and the line that a coin takes.
ghost use Rattle.std.specs.Prelude.{◌≡◌, ◌+◌, ◌*◌, ◌^◌, ◌<◌, ◌≤◌};
ghost use Rattle.space.specs.Sizes.{max_dim};
ghost use Rattle.proximity.specs.Dim.{half, col_dim};
ghost use Rattle.proximity.specs.Proof.{slot};
ghost use Rattle.proximity.specs.Verifier.{line_of, bits_left};
ghost use Rattle.proximity.specs.ByLine.{InRange, line_dim, proof_at, proof_end};

use super::Line;
use super::tables::proof_length;

// How many symbols a block has.
pub fn block_size(k: usize) -> usize
    requires { k ≤ max_dim }
    ensures { result ≡ 2 ^ half k }
{
    1usize << (k / 2)
}

// How many rows there are.
pub fn rows(k: usize) -> usize
    requires { k ≤ max_dim }
    ensures { result ≡ 2 ^ col_dim k }
{
    1usize << (k - k / 2)
}

// How many columns there are.
pub fn columns(k: usize) -> usize
    requires { k ≤ max_dim }
    ensures { result ≡ 2 ^ (half k + 2) }
{
    1usize << (k / 2 + 2)
}

// The line that a coin takes: bit 0 says whether it is a row or a column, and the next bits which.
//
// Ruled out: a row and a column swapped, since an even coin takes a row; the number by other bits
// than those after bit 0, lowest first.
pub fn line_of(k: usize, coin: u64) -> Line
    requires { k ≤ max_dim }
    ensures { result ≡ line_of k coin }
{
    let number = (coin / 2) as usize;
    if coin % 2 == 0 {
        return Line::Row(number % rows(k));
    }
    Line::Column(number % columns(k))
}

// The bits of the coin that are left for the line.
pub fn rest_of(k: usize, coin: u64) -> u64
    requires { k ≤ max_dim }
    ensures { result ≡ bits_left k coin }
{
    let h = k / 2;
    if coin % 2 == 0 {
        return (coin / 2) >> (k - h);
    }
    (coin / 2) >> (h + 2)
}

// The dimension of a line's space.
pub fn line_dimension(k: usize, line: Line) -> usize
    requires { k ≤ max_dim }
    ensures { result ≡ line_dim k line }
{
    match line {
        Line::Row(_) => k / 2 + 3,
        Line::Column(_) => k - k / 2,
    }
}

// Where the proof of a line begins: after the stored rows and the proofs of the lines before it.
pub fn line_proof_at(k: usize, line: Line) -> usize
    requires { (7 ≤ k) × (k ≤ max_dim) × InRange k line }
    ensures { result ≡ proof_at k line }
{
    let stored = 7usize << k;
    let row = proof_length(k / 2 + 3);
    match line {
        Line::Row(r) => stored + r * row,
        Line::Column(a) => stored + rows(k) * row + a * proof_length(k - k / 2),
    }
}

// Where it ends.
pub fn line_proof_end(k: usize, line: Line) -> usize
    requires { (7 ≤ k) × (k ≤ max_dim) × InRange k line }
    ensures { result ≡ proof_end k line }
{
    line_proof_at(k, line) + proof_length(line_dimension(k, line))
}

// The block of row r that lies in the word.
pub fn slot(r: usize) -> usize
    ensures { result ≡ slot r }
{
    if r < 4 { r } else { 4 }
}

// Where the seven stored blocks of row r begin in the proof.
pub fn blocks_at(k: usize, r: usize) -> usize
    requires { (k ≤ max_dim) × (r < 2 ^ col_dim k) }
    ensures { result ≡ r * (7 * 2 ^ half k) }
{
    r * (7 * block_size(k))
}
