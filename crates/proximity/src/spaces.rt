// The table of a line's space, from that of the space. No product of the field is needed.
ghost use Rattle.std.specs.Prelude.{◌≡◌, ◌+◌, ◌≤◌, ◌<◌, length};
ghost use Rattle.space.specs.Sizes.{max_dim, cells};
ghost use Rattle.proximity.specs.LineImages.{added_row, element_images, row_images, LineTable};
ghost use Rattle.proximity.specs.LeafTable.{LeafTable};

use super::Line;
use super::lines::{line_dimension, line_of, rest_of};
use space::upper::upper_images;
use space::{CELLS, Space};

// x with row i of the table added.
fn with_row(images: &[u16; CELLS], i: usize, x: [u16; 16]) -> [u16; 16]
    requires { i < max_dim }
    ensures { result ≡ added_row images.now i x }
{
    let mut out = x;
    for (j, y) in out.iter_mut().enumerate() {
        *y ^= images[16 * i + j];
    }
    out
}

// The images of the element at the one bits of r, from basis element h on, of c basis elements.
pub fn element_images(images: &[u16; CELLS], h: usize, c: usize, r: usize) -> [u16; 16]
    requires { h + c ≤ max_dim }
    ensures { result ≡ element_images h c images.now r }
{
    let mut x = [0u16; 16];
    let mut rest = r;
    for i in 0..c {
        if rest % 2 == 1 {
            let y = with_row(images, h + i, x);
            x = y;
        }
        rest /= 2;
    }
    x
}

// The table of row r.
pub fn row_images(images: &[u16; CELLS], k: usize, r: usize) -> [u16; CELLS]
    requires { (7 ≤ k) × (k ≤ max_dim) × (length images.now ≡ cells) }
    ensures { result ≡ row_images k images.now r }
{
    let h = k / 2;
    let mut t = *images;
    if r < 4 {
        return t;
    }
    let x = element_images(images, h, k - h, r);
    let a = 16 * (h + 2);
    t[a..a + 16].copy_from_slice(&x);
    t
}

// The table of a line.
//
// Ruled out: the table of the space for each row, since a row from 4 on has another last basis
// element; columns over b_(h+1).. in place of their images, since both indices are shifted.
pub fn line_images(images: &[u16; CELLS], k: usize, line: Line) -> [u16; CELLS]
    requires { (7 ≤ k) × (k ≤ max_dim) × (length images.now ≡ cells) }
    ensures { LineTable k images.now line result }
{
    match line {
        Line::Row(r) => row_images(images, k, r),
        Line::Column(_) => upper_images(images, k / 2),
    }
}

// The space at which a coin ends: the same is done with the space of the row or column that the
// coin takes. The dimension falls each time.
//
// Ruled out: the space of the first row or column, where that has a proof of its own; the bits left
// over after a row taken for those after a column.
pub fn leaf_space(images: &[u16; CELLS], k: usize, coin: u64) -> Space
    requires { (k ≤ max_dim) × (length images.now ≡ cells) }
    ensures { LeafTable k images.now coin result.k result.images }
{
    if k <= 6 {
        return Space { k, images: *images };
    }
    let line = line_of(k, coin);
    let t = line_images(images, k, line);
    leaf_space(&t, line_dimension(k, line), rest_of(k, coin))
}
