// A word that is lent in two parts: `near` is one of its eight blocks, number `slot`, and `far` the
// seven others in order. A row is lent so, its near block lying in the word and the others in the
// proof; a plain word has its first block near.
ghost use Rattle.std.specs.Prelude.{◌≡◌, ◌+◌, ◌-◌, ◌*◌, ◌%◌, ◌^◌, ◌<◌, ◌≤◌, length, take, drop, get_or};
ghost use Rattle.lists.specs.Tables.{part};
ghost use Rattle.space.specs.Sizes.{max_dim};
ghost use Rattle.proximity.specs.Dim.{half, col_dim, S};
ghost use Rattle.proximity.specs.ByLine.{InRange, line_proof};
ghost use Rattle.proximity.specs.Reads.{Inside};
ghost use Rattle.proximity.specs.Verifier.{read_at};
ghost use Rattle.verifier.specs.Parts.{InParts, Lent, joined};

use proximity::{Line, Place, lines};

// Block j, as a part of one of the two lent slices.
pub fn block<'a>(near: &'a [u16], far: &'a [u16], slot: usize, j: usize) -> &'a [u16]
    requires { InParts near.now far.now slot × (j < 8) }
    ensures { result.now ≡ part (length near.now) j (joined near.now far.now slot) }
{
    let size = near.len();
    if j == slot {
        return near;
    }
    let mut start = j * size;
    if slot < j {
        start -= size;
    }
    let end = start + size;
    &far[start..end]
}

// The count symbols from position at on, which lie in one block of 2^e symbols.
pub fn stretch<'a>(
    near: &'a [u16],
    far: &'a [u16],
    slot: usize,
    e: u32,
    at: usize,
    count: usize,
) -> &'a [u16]
    requires in_parts { InParts near.now far.now slot × (length near.now ≡ 2 ^ e) × (e < 32) }
    requires at_bound { (at < 8 * 2 ^ e) × (at % 2 ^ e + count ≤ 2 ^ e) }
    ensures { result.now ≡ take count (drop at (joined near.now far.now slot)) }
{
    let b = block(near, far, slot, at >> e);
    let o = at % (1usize << e);
    let end = o + count;
    &b[o..end]
}

// The symbol at a position.
pub fn symbol<'a>(near: &'a [u16], far: &'a [u16], slot: usize, e: u32, at: usize) -> u16
    requires { InParts near.now far.now slot × (length near.now ≡ 2 ^ e) × (e < 32) × (at < 8 * 2 ^ e) }
    ensures { result ≡ get_or (joined near.now far.now slot) at 0 }
{
    let s = stretch(near, far, slot, e, at, 1);
    s[0]
}

// The block of row r that lies in the word.
pub fn row_near<'a>(near: &'a [u16], far: &'a [u16], slot: usize, k: usize, r: usize) -> &'a [u16]
    requires { InParts near.now far.now slot × (length near.now ≡ 2 ^ (k - 3)) × (7 ≤ k) × (k ≤ max_dim) × (r < 2 ^ col_dim k) }
    ensures { result.now ≡ part (2 ^ half k) r (joined near.now far.now slot) }
{
    let size = lines::block_size(k);
    let e = (k - 3) as u32;
    stretch(near, far, slot, e, r * size, size)
}

// The seven stored blocks of row r.
pub fn row_far(proof: &[u16], k: usize, r: usize) -> &[u16]
    requires { (7 ≤ k) × (k ≤ max_dim) × (length proof.now ≡ S k) × (r < 2 ^ col_dim k) }
    ensures { result.now ≡ part (7 * 2 ^ half k) r proof.now }
{
    let at = lines::blocks_at(k, r);
    let end = at + 7 * lines::block_size(k);
    &proof[at..end]
}

// The proof of a line.
pub fn line_proof(proof: &[u16], k: usize, line: Line) -> &[u16]
    requires { (7 ≤ k) × (k ≤ max_dim) × (length proof.now ≡ S k) × InRange k line }
    ensures { result.now ≡ line_proof k proof.now line }
{
    let at = lines::line_proof_at(k, line);
    let end = lines::line_proof_end(k, line);
    &proof[at..end]
}

// The symbol at a place of the lent word or the lent proof.
pub fn symbol_at<'a>(
    near: &'a [u16],
    far: &'a [u16],
    slot: usize,
    proof: &'a [u16],
    k: usize,
    place: Place,
) -> u16
    requires { Lent k near.now far.now slot proof.now × (3 ≤ k) × (k ≤ max_dim) × Inside (2 ^ k) (S k) place }
    ensures { result ≡ read_at (joined near.now far.now slot) proof.now place }
{
    match place {
        Place::InWord(at) => symbol(near, far, slot, (k - 3) as u32, at),
        Place::InProof(at) => proof[at],
    }
}
