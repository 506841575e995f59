// The proof of a codeword: the stored rows, then the same inside each row and each column of a
// dimension above 6, each inner proof in its own stretch.
ghost use Rattle.std.specs.Prelude.{◌≡◌, ◌*◌, ◌^◌, ◌≤◌, length};
ghost use Rattle.space.specs.Sizes.{max_dim};
ghost use Rattle.proximity.specs.Dim.{S};
ghost use Rattle.prover.specs.Prover.{Proving, Proved, line_at, Deep};

use field::Field;
use proximity::{Line, lines, spaces};
use rows::words;
use space::CELLS;

// The lines one after the other: first the rows.
fn line_at(k: usize, i: usize) -> Line
    requires { k ≤ max_dim }
    ensures { result ≡ line_at k i }
{
    let rows = lines::rows(k);
    if i < rows {
        return Line::Row(i);
    }
    Line::Column(i - rows)
}

// How many lines have a proof: the rows before the columns, which have the lower dimension.
fn deep_lines(k: usize) -> usize
    requires { (7 ≤ k) × (k ≤ max_dim) }
    ensures { Deep k result × (result ≤ 2 ^ max_dim) }
{
    let h = k / 2;
    if h + 3 <= 6 {
        return 0;
    }
    if k - h <= 6 {
        return lines::rows(k);
    }
    lines::rows(k) + lines::columns(k)
}

// Writes the proof of the codeword.
pub fn prove_in(
    f: Field,
    k: usize,
    images: &[u16; CELLS],
    word: &[u16],
    proof: &mut [u16],
    work: &mut [u16],
)
    requires { Proving f k images.now word.now × (length proof.old ≡ S k) × (2 * 2 ^ k ≤ length work.old) }
    ensures { Proved f.modulus k images.now word.now proof.new }
{
    if k <= 6 {
        return;
    }
    rows::fill_rows(f, images, k, word, proof, work);
    let count = deep_lines(k);
    for i in 0..count {
        let line = line_at(k, i);
        let inner = words::line_word(k, line, word, proof);
        let table = spaces::line_images(images, k, line);
        let m = lines::line_dimension(k, line);
        let n = 1usize << m;
        let at = lines::line_proof_at(k, line);
        let end = lines::line_proof_end(k, line);
        prove_in(f, m, &table, &inner[..n], &mut proof[at..end], work);
    }
}
