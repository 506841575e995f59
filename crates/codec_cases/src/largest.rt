// There and back at dimension 14 over GF(2^16), with the shift 0 and with another. Of the output a
// digest is shown.
use super::lines::{cleared, figure, outcome};
use refusals::Refusal;

// A number that depends on each symbol and its place.
fn digest(xs: &[u16]) -> u32 {
    xs.iter()
        .fold(1, |h, x| (h % 65521 * 5 + u32::from(*x)) % 65521)
}

fn show(label: &[u8], r: Result<(), Refusal>, out: &[u16], scratch: &[u16]) {
    outcome(label, r);
    figure(b" digest ", digest(out) as u64);
    cleared(scratch);
}

fn fill(values: &mut [u16]) {
    let mut x: u16 = 1;
    for value in values {
        x = x.wrapping_mul(25173).wrapping_add(13849);
        *value = x;
    }
}

fn small_room() -> [u16; 2048] {
    [9u16; 2048]
}

fn word_room() -> [u16; 16384] {
    [9u16; 16384]
}

fn scratch_room() -> [u16; 65536] {
    [7u16; 65536]
}

fn basis() -> [u16; 14] {
    [
        1, 3, 70, 500, 1027, 2049, 5000, 9001, 17000, 33000, 40001, 60007, 20000, 65000,
    ]
}

fn encode(label: &[u8], shift: u16, word: &mut [u16], scratch: &mut [u16]) {
    let mut coefficients = small_room();
    fill(&mut coefficients);
    let r = codec::encode(69643, &basis(), shift, &coefficients, word, scratch);
    show(label, r, word, scratch);
}

fn decode(label: &[u8], shift: u16, word: &[u16], scratch: &mut [u16]) {
    let mut coefficients = small_room();
    let r = codec::decode(69643, &basis(), shift, word, &mut coefficients, scratch);
    show(label, r, &coefficients, scratch);
}

// There and back, and the word with another last symbol; there and back at a shift, and what the word
// gives without it.
pub fn largest() {
    let mut word = word_room();
    let mut scratch = scratch_room();
    encode(b"encode 14:", 0, &mut word, &mut scratch);
    decode(b"decode 14:", 0, &word, &mut scratch);
    word[16383] ^= 1;
    decode(b"decode 14, last symbol changed:", 0, &word, &mut scratch);
    encode(b"encode 14 at 43981:", 43981, &mut word, &mut scratch);
    decode(b"decode 14 at 43981:", 43981, &word, &mut scratch);
    decode(b"decode 14 at 0:", 0, &word, &mut scratch);
}
