// The bench cases of the checker, and the prover's pairs at k = 7 to 9 counted over all coins: a
// line for each, held to the file stdout. Lent outputs and scratch come in as sevens. A line that can't
// be written is let go.
#![tactic(auto)]

mod answers;
mod short;

use answers::{Checked, Made, is_accepted};

// The coins below the given number at which the pair is not accepted.
fn unaccepted<'a>(
    modulus: u32,
    basis: &[u16],
    shift: u16,
    word: &'a [u16],
    proof: &'a [u16],
    coins: u64,
) -> usize {
    (0..coins)
        .filter(|coin| !is_accepted(verifier::check(modulus, basis, shift, word, proof, *coin)))
        .count()
}

fn count<'a>(
    rt: &impl Print,
    label: &str,
    modulus: u32,
    basis: &[u16],
    shift: u16,
    word: &'a [u16],
    proof: &'a [u16],
    coins: u64,
) {
    let n = unaccepted(modulus, basis, shift, word, proof, coins);
    let _ = println!(rt; "{label}: rejecting coins {n}");
}

fn change(word: &mut [u16]) {
    if 5 < word.len() {
        word[5] ^= 1;
    }
}

// A word and its proof, then all coins.
fn round(
    rt: &impl Print,
    label: &str,
    modulus: u32,
    basis: &[u16],
    shift: u16,
    coefficients: &[u16],
    word: &mut [u16],
    proof: &mut [u16],
    scratch: &mut [u16],
    coins: u64,
) {
    let _ = println!(rt; "{label}");
    let _ = println!(rt;
        "  encoded: {}",
        Made(codec::encode(modulus, basis, shift, coefficients, word, scratch))
    );
    let _ = println!(rt;
        "  proved: {}",
        Made(prover::prove(modulus, basis, shift, word, proof, scratch))
    );
    count(rt, "  pair", modulus, basis, shift, word, proof, coins);
}

// All coins again, with one symbol of the word changed.
fn changed(
    rt: &impl Print,
    modulus: u32,
    basis: &[u16],
    shift: u16,
    word: &mut [u16],
    proof: &mut [u16],
    scratch: &mut [u16],
    coins: u64,
) {
    change(word);
    count(rt, "  changed", modulus, basis, shift, word, proof, coins);
    let _ = println!(rt;
        "  proved again: {}",
        Made(prover::prove(modulus, basis, shift, word, proof, scratch))
    );
}

fn round7(rt: &impl Print, label: &str, modulus: u32, basis: &[u16], shift: u16) {
    let mut word = [7u16; 128];
    let mut proof = [7u16; 896];
    let mut scratch = [7u16; 512];
    round(
        rt,
        label,
        modulus,
        basis,
        shift,
        &[1, 2, 3, 4, 5, 6, 7, 8, 9, 10, 11, 12, 13, 14, 15, 16],
        &mut word,
        &mut proof,
        &mut scratch,
        64,
    );
    changed(
        rt,
        modulus,
        basis,
        shift,
        &mut word,
        &mut proof,
        &mut scratch,
        64,
    );
}

fn round8(rt: &impl Print, label: &str, modulus: u32, basis: &[u16], shift: u16) {
    let mut word = [7u16; 256];
    let mut proof = [7u16; 16128];
    let mut scratch = [7u16; 1024];
    round(
        rt,
        label,
        modulus,
        basis,
        shift,
        &[57; 32],
        &mut word,
        &mut proof,
        &mut scratch,
        2048,
    );
    changed(
        rt,
        modulus,
        basis,
        shift,
        &mut word,
        &mut proof,
        &mut scratch,
        2048,
    );
}

// In a frame of its own, so that the other rounds do not stand on its arrays.
#[inline(never)]
fn round9(rt: &impl Print, label: &str, modulus: u32, basis: &[u16], shift: u16) {
    let mut word = [7u16; 512];
    let mut proof = [7u16; 32256];
    let mut scratch = [7u16; 2048];
    round(
        rt,
        label,
        modulus,
        basis,
        shift,
        &[131; 64],
        &mut word,
        &mut proof,
        &mut scratch,
        4096,
    );
    changed(
        rt,
        modulus,
        basis,
        shift,
        &mut word,
        &mut proof,
        &mut scratch,
        4096,
    );
}

// The setting of the zero pair: the first seven powers of 2 in the field of bytes.
fn seven<'a>(word: &'a [u16], proof: &'a [u16], coin: u64) -> Checked {
    let basis = [1u16, 2, 4, 8, 16, 32, 64];
    Checked(verifier::check(283, &basis, 0, word, proof, coin))
}

fn count_seven<'a>(rt: &impl Print, label: &str, word: &'a [u16], proof: &'a [u16]) {
    let basis = [1u16, 2, 4, 8, 16, 32, 64];
    count(rt, label, 283, &basis, 0, word, proof, 64);
}

// The zero pair at k = 7, and one symbol of it changed.
fn zero_pair(rt: &impl Print) {
    let mut word = [0u16; 128];
    let mut proof = [0u16; 896];
    count_seven(rt, "k 7, zeros", &word, &proof);
    proof[0] = 1;
    count_seven(rt, "k 7, proof position 0", &word, &proof);
    proof[0] = 0;
    word[32] = 1;
    count_seven(rt, "k 7, word position 32", &word, &proof);
    let _ = println!(rt;
        "k 7, word position 32, coin 8: {}",
        seven(&word, &proof, 8)
    );
    word[32] = 0;
    proof[0] = 1;
    let _ = println!(rt;
        "k 7, proof position 0, coin 17: {}",
        seven(&word, &proof, 17)
    );
    proof[0] = 0;
    let _ = println!(rt; "k 7, coin 63: {}", seven(&word, &proof, 63));
    let _ = println!(rt; "k 7, coin 64: {}", seven(&word, &proof, 64));
}

// The same word and proof in settings with a shift, and a shift that is no symbol.
fn shifts(rt: &impl Print) {
    let basis = [1u16, 2, 4, 8, 16, 32, 64];
    let word = [0u16; 128];
    let mut proof = [0u16; 896];
    let mut scratch = [7u16; 512];
    let _ = println!(rt;
        "k 7, shift 255, coin 63: {}",
        Checked(verifier::check(283, &basis, 255, &word, &proof, 63))
    );
    let _ = println!(rt;
        "k 7, shift 256, coin 63: {}",
        Checked(verifier::check(283, &basis, 256, &word, &proof, 63))
    );
    let _ = println!(rt;
        "k 7, shift 256, proved: {}",
        Made(prover::prove(283, &basis, 256, &word, &mut proof, &mut scratch))
    );
}

fn rounds(rt: &impl Print) {
    round7(rt, "k 7, modulus 283", 283, &[1, 2, 4, 8, 16, 32, 64], 0);
    round7(rt, "k 7, modulus 137", 137, &[64, 3, 17, 5, 9, 32, 1], 0);
    round8(
        rt,
        "k 8, modulus 283",
        283,
        &[1, 2, 4, 8, 16, 32, 64, 128],
        0,
    );
    round8(
        rt,
        "k 8, modulus 65579",
        65579,
        &[3, 5, 9, 32768, 257, 64, 2, 1000],
        0,
    );
    round9(
        rt,
        "k 9, modulus 65579",
        65579,
        &[1, 2, 4, 8, 16, 32, 64, 128, 256],
        0,
    );
}

fn shifted_rounds(rt: &impl Print) {
    round7(
        rt,
        "k 7, modulus 137, shift 100",
        137,
        &[64, 3, 17, 5, 9, 32, 1],
        100,
    );
    round8(
        rt,
        "k 8, modulus 65579, shift 40000",
        65579,
        &[3, 5, 9, 32768, 257, 64, 2, 1000],
        40000,
    );
}

fn main(rt: HostRuntime) {
    zero_pair(&rt);
    short::only_coin(&rt);
    short::words(&rt);
    rounds(&rt);
    shifts(&rt);
    shifted_rounds(&rt);
}
