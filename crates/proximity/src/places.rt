// Where the layout keeps a symbol, and the positions that a coin reads.
ghost use Rattle.std.specs.Prelude.{◌≡◌, ◌+◌, ◌^◌, ◌<◌, ◌≤◌, length};
ghost use Rattle.space.specs.Sizes.{max_dim};
ghost use Rattle.proximity.specs.Dim.{half, row_dim, col_dim, dim, S};
ghost use Rattle.proximity.specs.Verifier.{cell, positions};
ghost use Rattle.proximity.specs.Reads.{Inside};
ghost use Rattle.proximity.specs.ByLine.{InRange, line_dim, line_place, place_at};
ghost use Rattle.proximity.specs.declared.Line.TheVariants.{Column};

use super::lines::{block_size, blocks_at, line_dimension, line_of, line_proof_at, rest_of, slot};
use super::{Line, Place};

// Where symbol i of row r lies: before, in or after the block that lies in the word.
//
// Ruled out: the block of row r, for r above 4, taken for block r, since it is block 4; a symbol of
// the block that lies in the word, taken from the proof.
pub fn row_place(k: usize, r: usize, i: usize) -> Place
    requires { (k ≤ max_dim) × (r < 2 ^ col_dim k) × (i < 2 ^ row_dim k) }
    ensures { result ≡ cell k r i }
{
    let size = block_size(k);
    let start = slot(r) * size;
    let stored = blocks_at(k, r);
    if i < start {
        return Place::InProof(stored + i);
    }
    if i < start + size {
        return Place::InWord(r * size + (i - start));
    }
    Place::InProof(stored + (i - size))
}

// Where a place of a line's own word and proof lies.
pub fn line_place(k: usize, line: Line, p: Place) -> Place
    requires { (7 ≤ k) × (k ≤ max_dim) × InRange k line × Inside (2 ^ line_dim k line) (S (line_dim k line)) p }
    ensures { result ≡ line_place k line p }
{
    match p {
        Place::InProof(i) => Place::InProof(line_proof_at(k, line) + i),
        Place::InWord(i) => match line {
            Line::Row(r) => row_place(k, r, i),
            Line::Column(a) => row_place(k, i, a),
        },
    }
}

// Where the symbol of number i that a coin reads lies.
//
// Ruled out: a column's symbol that is always taken from the proof, since one of each column's
// first four lies in the word; the bits of a coin used in another order.
pub fn place(k: usize, coin: u64, i: usize) -> Place
    requires { (k ≤ max_dim) × (i < length (positions (dim k) coin)) }
    ensures { result ≡ place_at k coin i }
{
    if k <= 6 {
        return Place::InWord(i);
    }
    let line = line_of(k, coin);
    let inner = place(line_dimension(k, line), rest_of(k, coin), i);
    line_place(k, line, inner)
}

// The same for a coin that takes column a, by the bits that are left: a short column is read by rows.
pub fn column_place(k: usize, a: usize, rest: u64, i: usize) -> Place
    requires { (7 ≤ k) × (k ≤ max_dim) × (a < 2 ^ (half k + 2)) × (i < length (positions (dim (col_dim k)) rest)) }
    ensures { (result ≡ line_place k (Column a) (place_at (col_dim k) rest i)) × Inside (2 ^ k) (S k) result }
{
    let m = k - k / 2;
    if m <= 6 {
        return row_place(k, i, a);
    }
    line_place(k, Line::Column(a), place(m, rest, i))
}
