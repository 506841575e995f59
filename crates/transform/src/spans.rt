// The images of the elements of a span, as lanes of a transform.
ghost use Rattle.std.specs.Prelude.{◌≡◌, ℕ, ◌+◌, ◌*◌, ◌<◌, ◌≤◌, ◌^◌, length, get_or};
ghost use Rattle.lists.specs.Filled.{Filled};
ghost use Rattle.field.specs.Binary.{◌⊕◌};
ghost use Rattle.transform.specs.Spans.{Zeros, SpanList, SpanLanes};
ghost use Rattle.space.specs.Sizes.{max_dim, lane_cells};

use space::{CELLS, LANE_CELLS};

// Lanes of the element 0.
pub fn no_lanes() -> [u16; LANE_CELLS]
    ensures { Zeros lane_cells result }
{
    [0u16; LANE_CELLS]
}

// The first n numbers of a list again after them, with x added.
fn add_element(x: u16, n: usize, list: &mut [u16])
    requires { n + n ≤ length list.old }
    ensures { Filled n n (λ (e : ℕ). get_or list.old e 0 ⊕ x) list.old list.new }
{
    for e in 0..n {
        list[n + e] = list[e] ^ x;
    }
}

// The images of number j of the 2^c elements.
fn span_list(images: &[u16; CELLS], from: usize, c: usize, j: usize, list: &mut [u16])
    requires { (from + c ≤ max_dim) × (j < 16) × (length list.old ≡ 2 ^ c) }
    ensures { SpanList images.now from c j (2 ^ c) list.new }
{
    list[0] = 0;
    for i in 0..c {
        add_element(images[16 * (from + i) + j], 1usize << i, list);
    }
}

// The lanes of the span of c basis elements, from number `from` on: m lists of 2^c, list j with the
// images of number j.
pub fn span_lanes(images: &[u16; CELLS], from: usize, c: usize, m: usize) -> [u16; LANE_CELLS]
    requires { (m * 2 ^ c ≤ lane_cells) × (from + c ≤ max_dim) × (m ≤ 16) }
    ensures { SpanLanes images.now from c m result }
{
    let mut lanes = no_lanes();
    let n = 1usize << c;
    for j in 0..m {
        span_list(images, from, c, j, &mut lanes[j * n..j * n + n]);
    }
    lanes
}
