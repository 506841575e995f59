// The words of the rows and columns, gathered from the word and the stored rows.
ghost use Rattle.std.specs.Prelude.{◌≡◌, ◌+◌, ◌*◌, ◌^◌, ◌<◌, ◌≤◌, length, take, get_or, replicate};
ghost use Rattle.space.specs.Sizes.{max_dim, max_line};
ghost use Rattle.proximity.specs.Dim.{half, row_dim, col_dim};
ghost use Rattle.proximity.specs.Proof.{row, column, block};
ghost use Rattle.proximity.specs.ByLine.{InRange, line_dim, line_word};

use super::number;
use proximity::{Line, lines};
use space::MAX_LINE;
use transform::slices;

fn no_symbols() -> [u16; MAX_LINE]
    ensures { result ≡ replicate max_line 0 }
{
    [0u16; MAX_LINE]
}

// Block j of row r, as a part of the word or of the proof.
fn block<'a>(k: usize, word: &'a [u16], proof: &'a [u16], r: usize, j: usize) -> &'a [u16]
    requires le_k { (7 ≤ k) × (k ≤ max_dim) × (length word.now ≡ 2 ^ k) × (7 * 2 ^ k ≤ length proof.now) }
    requires r_bound { (r < 2 ^ col_dim k) × (j < 8) }
    ensures { result.now ≡ block k word.now proof.now r j }
{
    let size = lines::block_size(k);
    if j == lines::slot(r) {
        let own = r * size;
        let next = own + size;
        return &word[own..next];
    }
    let at = number(r, j) * size;
    let end = at + size;
    &proof[at..end]
}

// The word of row r, block by block.
fn row_word<'a>(k: usize, word: &'a [u16], proof: &'a [u16], r: usize) -> [u16; MAX_LINE]
    requires { (7 ≤ k) × (k ≤ max_dim) × (length word.now ≡ 2 ^ k) × (7 * 2 ^ k ≤ length proof.now) × (r < 2 ^ col_dim k) }
    ensures { (length result ≡ max_line) × (take (2 ^ row_dim k) result ≡ row k word.now proof.now r) }
{
    let size = lines::block_size(k);
    let mut out = no_symbols();
    for j in 0..8 {
        let at = j * size;
        let end = at + size;
        slices::copy(block(k, word, proof, r, j), &mut out[at..end]);
    }
    out
}

// Symbol a of row r.
fn row_symbol<'a>(k: usize, word: &'a [u16], proof: &'a [u16], r: usize, a: usize) -> u16
    requires le_k { (7 ≤ k) × (k ≤ max_dim) × (length word.now ≡ 2 ^ k) × (7 * 2 ^ k ≤ length proof.now) }
    requires r_bound { (r < 2 ^ col_dim k) × (a < 2 ^ row_dim k) }
    ensures { result ≡ get_or (row k word.now proof.now r) a 0 }
{
    let size = lines::block_size(k);
    let b = block(k, word, proof, r, a / size);
    b[a % size]
}

// The word of column a, row by row.
fn column_word<'a>(k: usize, word: &'a [u16], proof: &'a [u16], a: usize) -> [u16; MAX_LINE]
    requires { (7 ≤ k) × (k ≤ max_dim) × (length word.now ≡ 2 ^ k) × (7 * 2 ^ k ≤ length proof.now) × (a < 2 ^ (half k + 2)) }
    ensures { (length result ≡ max_line) × (take (2 ^ col_dim k) result ≡ column k word.now proof.now a) }
{
    let rows = lines::rows(k);
    let mut out = no_symbols();
    for r in 0..rows {
        out[r] = row_symbol(k, word, proof, r, a);
    }
    out
}

// The word of a line.
pub fn line_word<'a>(k: usize, line: Line, word: &'a [u16], proof: &'a [u16]) -> [u16; MAX_LINE]
    requires { (7 ≤ k) × (k ≤ max_dim) × (length word.now ≡ 2 ^ k) × (7 * 2 ^ k ≤ length proof.now) × InRange k line }
    ensures { (length result ≡ max_line) × (take (2 ^ line_dim k line) result ≡ line_word k word.now proof.now line) }
{
    match line {
        Line::Row(r) => row_word(k, word, proof, r),
        Line::Column(a) => column_word(k, word, proof, a),
    }
}
