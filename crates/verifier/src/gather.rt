// Symbols gathered into a local array: those that a coin reads, and a short word in lanes.
ghost use Rattle.std.specs.Prelude.{◌≡◌, ◌≤◌, length, take};
ghost use Rattle.space.specs.Sizes.{max_dim};
ghost use Rattle.transform.specs.Slices.{Transposed};
ghost use Rattle.proximity.specs.ByLine.{InRange, line_word, line_proof};
ghost use Rattle.proximity.specs.Dim.{col_dim};
ghost use Rattle.proximity.specs.declared.Line.TheVariants.{Column};
ghost use Rattle.verifier.specs.Checker.{symbols_at, reads_of};
ghost use Rattle.verifier.specs.Parts.{InParts, Lent, joined, no_symbols};

use super::blocks;
use proximity::places;
use transform::slices;

fn no_symbols() -> [u16; 64]
    ensures { result ≡ no_symbols }
{
    [0u16; 64]
}

// The n symbols that the bits left over read of column a and its proof, one by one, each from the
// place where the layout keeps it.
pub fn symbols<'a>(
    near: &'a [u16],
    far: &'a [u16],
    slot: usize,
    proof: &'a [u16],
    k: usize,
    a: usize,
    rest: u64,
    n: usize,
) -> [u16; 64]
    requires { Lent k near.now far.now slot proof.now × (7 ≤ k) × (k ≤ max_dim) × InRange k (Column a) × (n ≡ reads_of (col_dim k) rest) }
    ensures { (length result ≡ 64) × (take n result ≡ symbols_at (col_dim k) (line_word k (joined near.now far.now slot) proof.now (Column a)) (line_proof k proof.now (Column a)) rest) }
{
    let mut out = no_symbols();
    for i in 0..n {
        let place = places::column_place(k, a, rest, i);
        out[i] = blocks::symbol_at(near, far, slot, proof, k, place);
    }
    out
}

// The eight blocks of a word of at most 64 symbols, in lanes.
pub fn gather<'a>(near: &'a [u16], far: &'a [u16], slot: usize) -> [u16; 64]
    requires { InParts near.now far.now slot × (length near.now ≤ 8) }
    ensures { Transposed 8 (length near.now) (joined near.now far.now slot) no_symbols result }
{
    let mut out = no_symbols();
    for b in 0..8 {
        slices::to_lane(blocks::block(near, far, slot, b), 8, b, &mut out);
    }
    out
}
