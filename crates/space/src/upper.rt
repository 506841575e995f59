// The table of a space, by its places.
ghost use Rattle.std.specs.Prelude.{◌≡◌, ◌≤◌, length};
ghost use Rattle.space.specs.Images.{upper_images};
ghost use Rattle.space.specs.Sizes.{max_dim, cells};

use super::CELLS;

// The images from number h on of the basis elements from number h on: both indices shifted by h.
pub fn upper_images(images: &[u16; CELLS], h: usize) -> [u16; CELLS]
    requires { (h ≤ max_dim) × (length images.now ≡ cells) }
    ensures { result ≡ upper_images h images.now }
{
    let shift = 17 * h;
    let mut t = [0u16; CELLS];
    for p in shift..CELLS {
        t[p - shift] = images[p];
    }
    t
}
