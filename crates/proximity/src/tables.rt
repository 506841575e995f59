// S and R by dimension: how many symbols a proof has, and how many bits a coin.
ghost use Rattle.std.specs.Prelude.{◌≡◌, ◌≤◌};
ghost use Rattle.space.specs.Sizes.{max_dim};
ghost use Rattle.proximity.specs.Dim.{S, R};

use space::MAX;

const LENGTHS: [usize; MAX + 1] = [
    0, 0, 0, 0, 0, 0, 0, 896, 16128, 32256, 523264, 1046528, 2093056, 4415488, 67551232,
];

const BITS: [u32; MAX + 1] = [0, 0, 0, 0, 0, 0, 0, 6, 11, 12, 17, 18, 19, 20, 25];

// S(k).
pub fn proof_length(k: usize) -> usize
    requires { k ≤ max_dim }
    ensures { result ≡ S k }
{
    LENGTHS[k]
}

// R(k).
pub fn coin_bits(k: usize) -> u32
    requires { k ≤ max_dim }
    ensures { result ≡ R k }
{
    BITS[k]
}
