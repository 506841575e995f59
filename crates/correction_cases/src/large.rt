// Dimension 8: a codeword is a polynomial of degree below 32 at 256 elements, and 112 differences are
// corrected. The word of x + 7, which has i ^ 7 at position i, with every second of its first symbols
// made a 6. Of the output it is shown how many symbols are those of x + 7.
use super::Answer;
use case_lines::zeros;

// The symbol at position i, where those below an end are damaged.
fn symbol(i: usize, end: usize) -> u16 {
    if i < end && i % 2 == 0 {
        return 6;
    }
    (i % 256) as u16 ^ 7
}

// Adds the word: to zeros, which become the word; or to a word, which has zeros where it was the same.
fn add(end: usize, values: &mut [u16]) {
    for (i, value) in values.iter_mut().enumerate() {
        *value ^= symbol(i, end);
    }
}

fn scratch_room() -> [u16; 4096] {
    [7u16; 4096]
}

fn case(rt: &impl Print, label: &str, shift: u16, end: usize) {
    let mut word = [0u16; 256];
    let mut corrected = [9u16; 256];
    let mut scratch = scratch_room();
    add(end, &mut word);
    let answer = Answer(correction::correct(
        283,
        &[1, 2, 4, 8, 16, 32, 64, 128],
        shift,
        &word,
        &mut corrected,
        &mut scratch,
    ));
    add(0, &mut corrected);
    let right = zeros(&corrected);
    let _ = println!(rt;
        "{label}: {answer}, right {right}, zeros {}",
        zeros(&scratch)
    );
}

pub fn large(rt: &impl Print) {
    case(rt, "x + 7", 0, 0);
    case(rt, "x + 7, 112 others", 0, 224);
    case(rt, "x + 7, 113 others", 0, 226);
    case(rt, "x + 7, shift 200, 112 others", 200, 224);
    case(rt, "x + 7, shift 200, 113 others", 200, 226);
}
