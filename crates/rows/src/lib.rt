// The stored rows of a proof. All rows are made at once, in lanes: row r is lane r.
#![tactic(auto)]

pub mod words;

ghost use Rattle.std.specs.Prelude.{◌≡◌, ℕ, ◌+◌, ◌*◌, ◌^◌, ◌<◌, ◌≤◌, length, get_or, take};
ghost use Rattle.lists.specs.All.{Below};
ghost use Rattle.lists.specs.Filled.{Filled};
ghost use Rattle.field.specs.Binary.{degree};
ghost use Rattle.space.specs.Sizes.{max_dim, cells, lane_cells, max_column};
ghost use Rattle.transform.specs.Spans.{Zeros};
ghost use Rattle.proximity.specs.Dim.{half, col_dim};
ghost use Rattle.proximity.specs.Proof.{slot};
ghost use Rattle.rows.specs.Rows.{InTable, number, Coefficients, LastLanes, PassValues, PassStored, Stored};

use field::Field;
use proximity::{lines, spaces};
use space::{CELLS, LANE_CELLS};
use transform::{blocks, lanes, slices, spans};

// The coefficients of each row, from the word's blocks.
fn interpolate_rows(f: Field, images: &[u16; CELLS], k: usize, word: &[u16], work: &mut [u16])
    requires { InTable f k images.now × (length word.now ≡ 2 ^ k) × Below (2 ^ degree f.modulus) word.now × (length work.old ≡ 2 ^ k) }
    ensures { Coefficients f.modulus k images.now word.now work.new }
{
    let h = k / 2;
    let own = spans::span_lanes(images, h, k - h, h);
    slices::transpose(word, lines::rows(k), lines::block_size(k), work);
    lanes::interpolate(f, images, &own, lines::rows(k), h, blocks::no_shift(), work);
}

// The lanes of the last basis elements of the rows: b_(h+3) for the first four rows, else β.
fn last_lanes(images: &[u16; CELLS], k: usize) -> [u16; LANE_CELLS]
    requires { (7 ≤ k) × (k ≤ max_dim) × (length images.now ≡ cells) }
    ensures { LastLanes k images.now result }
{
    let h = k / 2;
    let rows = lines::rows(k);
    let x = spaces::element_images(images, h + 2, 1, 1);
    let mut last = spans::span_lanes(images, h, k - h, h);
    for r in 0..4 {
        slices::to_lane(&x[..h], rows, r, &mut last);
    }
    last
}

// The lanes of pass j: the last basis element counts from block 4 on.
fn pass_lanes(j: usize, last: &[u16; LANE_CELLS]) -> [u16; LANE_CELLS]
    ensures { (j < 4 → Zeros lane_cells result) × (4 ≤ j → result ≡ last.now) }
{
    if j < 4 {
        return spans::no_lanes();
    }
    *last
}

// Block j of each row, after the coefficients.
fn evaluate_rows(
    f: Field,
    images: &[u16; CELLS],
    k: usize,
    j: usize,
    last: &[u16; LANE_CELLS],
    work: &mut [u16],
)
    requires in_table { InTable f k images.now × LastLanes k images.now last.now × (j < 8) }
    requires k_in_bounds { (2 * 2 ^ k ≤ length work.old) × Below (2 ^ degree f.modulus) (take (2 ^ k) work.old) }
    ensures { PassValues f.modulus k images.now j work.old work.new }
{
    let h = k / 2;
    let n = 1usize << k;
    slices::copy_up(n, work);
    let shift = spaces::element_images(images, h, 2, j);
    let from = pass_lanes(j, last);
    lanes::evaluate(
        f,
        images,
        &from,
        lines::rows(k),
        h,
        shift,
        &mut work[n..2 * n],
    );
}

// The number of block j of row r among all stored blocks.
pub fn number(r: usize, j: usize) -> usize
    requires { (r < max_column) × (j < 8) × (j ≡ slot r → ⊥) }
    ensures { result ≡ number r j }
{
    if j < lines::slot(r) {
        return 7 * r + j;
    }
    7 * r + (j - 1)
}

// Stores block j of row r, which is lane r.
fn store_lane(k: usize, j: usize, r: usize, values: &[u16], proof: &mut [u16])
    requires le_k { (7 ≤ k) × (k ≤ max_dim) × (r < 2 ^ col_dim k) × (j < 8) × (j ≡ slot r → ⊥) }
    requires k_in_bounds { (2 ^ k ≤ length values.now) × (7 * 2 ^ k ≤ length proof.old) }
    ensures { Filled (number r j * 2 ^ half k) (2 ^ half k) (λ (i : ℕ). get_or values.now (i * 2 ^ col_dim k + r) 0) proof.old proof.new }
{
    let size = lines::block_size(k);
    let at = number(r, j) * size;
    let end = at + size;
    slices::from_lane(values, lines::rows(k), r, &mut proof[at..end]);
}

// Stores block j of each row but those that have it in the word.
fn store_rows(k: usize, j: usize, values: &[u16], proof: &mut [u16])
    requires { (7 ≤ k) × (k ≤ max_dim) × (j < 8) × (2 ^ k ≤ length values.now) × (7 * 2 ^ k ≤ length proof.old) }
    ensures { PassStored k j (2 ^ col_dim k) values.now proof.old proof.new }
{
    let rows = lines::rows(k);
    for r in 0..rows {
        if j != lines::slot(r) {
            store_lane(k, j, r, values, proof);
        }
    }
}

// Stores the rows, block by block.
pub fn fill_rows(
    f: Field,
    images: &[u16; CELLS],
    k: usize,
    word: &[u16],
    proof: &mut [u16],
    work: &mut [u16],
)
    requires in_table { InTable f k images.now × (length word.now ≡ 2 ^ k) × Below (2 ^ degree f.modulus) word.now }
    requires k_in_bounds { (7 * 2 ^ k ≤ length proof.old) × (2 * 2 ^ k ≤ length work.old) }
    ensures { Stored f.modulus k images.now word.now 8 proof.new }
{
    let n = 1usize << k;
    interpolate_rows(f, images, k, word, &mut work[..n]);
    let last = last_lanes(images, k);
    for j in 0..8 {
        evaluate_rows(f, images, k, j, &last, work);
        store_rows(k, j, &work[n..], proof);
    }
}
