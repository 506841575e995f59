// Words with no difference from a codeword, one, and as many as are corrected; words with no codeword
// that near; each refusal, and where two checks would refuse; then words of 256 symbols. A line for
// each call, with its output and the number of zeros in the scratch, held to the file stdout. Outputs
// come in as nines, the scratch as sevens. A line that can't be written is let go.
#![tactic(auto)]

mod large;

use case_lines::{Symbols, zeros};
use refusals::Refusal;
use std::fmt;

// What came of a call, beside its output.
#[derive(Clone, Copy)]
struct Answer(Result<usize, Refusal>);

impl fmt::Display for Answer {
    fn fmt<W: fmt::Write>(&self, f: &mut fmt::Formatter<W>) -> fmt::Result {
        match self.0 {
            Ok(n) => write!(f, "corrected {n}"),
            Err(e) => write!(f, "{e}"),
        }
    }
}

fn call(
    rt: &impl Print,
    label: &str,
    modulus: u32,
    basis: &[u16],
    shift: u16,
    word: &[u16],
    corrected: &mut [u16],
    scratch: &mut [u16],
) {
    let answer = Answer(correction::correct(modulus, basis, shift, word, corrected, scratch));
    let symbols = Symbols(corrected);
    let _ = println!(rt; "{label}: {answer},{symbols}, zeros {}", zeros(scratch));
}

// ---- what is lent

// For any setting what one of dimension 3 takes.
fn setting(rt: &impl Print, label: &str, modulus: u32, basis: &[u16], shift: u16, word: &[u16]) {
    let mut corrected = [9u16; 8];
    let mut scratch = [7u16; 128];
    call(
        rt,
        label,
        modulus,
        basis,
        shift,
        word,
        &mut corrected,
        &mut scratch,
    );
}

// Dimension 3: a codeword is 8 times one symbol, and 3 differences are corrected.
fn eight(rt: &impl Print, label: &str, word: &[u16]) {
    setting(rt, label, 11, &[1, 2, 4], 0, word);
}

// Dimension 4: a codeword is a + b x, and 7 differences are corrected.
fn sixteen(rt: &impl Print, label: &str, modulus: u32, basis: &[u16], word: &[u16]) {
    let mut corrected = [9u16; 16];
    let mut scratch = [7u16; 256];
    call(
        rt,
        label,
        modulus,
        basis,
        0,
        word,
        &mut corrected,
        &mut scratch,
    );
}

fn short_scratch(rt: &impl Print, label: &str, word: &[u16]) {
    let mut corrected = [9u16; 8];
    let mut scratch = [7u16; 127];
    call(
        rt,
        label,
        11,
        &[1, 2, 4],
        0,
        word,
        &mut corrected,
        &mut scratch,
    );
}

fn long_scratch(rt: &impl Print, label: &str, word: &[u16]) {
    let mut corrected = [9u16; 8];
    let mut scratch = [7u16; 200];
    call(
        rt,
        label,
        11,
        &[1, 2, 4],
        0,
        word,
        &mut corrected,
        &mut scratch,
    );
}

fn output(rt: &impl Print, label: &str, corrected: &mut [u16]) {
    let mut scratch = [7u16; 128];
    call(
        rt,
        label,
        11,
        &[1, 2, 4],
        0,
        &[5; 8],
        corrected,
        &mut scratch,
    );
}

// ---- the cases

fn words_of_eight(rt: &impl Print) {
    eight(rt, "all 5", &[5, 5, 5, 5, 5, 5, 5, 5]);
    eight(rt, "first 6", &[6, 5, 5, 5, 5, 5, 5, 5]);
    eight(rt, "last 6", &[5, 5, 5, 5, 5, 5, 5, 6]);
    eight(rt, "3 others", &[5, 0, 5, 7, 5, 5, 5, 1]);
    eight(rt, "first 3 are 6", &[6, 6, 6, 5, 5, 5, 5, 5]);
    eight(rt, "3 others among zeros", &[0, 3, 0, 0, 3, 0, 3, 0]);
    eight(rt, "4 others", &[5, 0, 5, 7, 5, 2, 5, 1]);
    eight(rt, "4 and 4", &[5, 5, 5, 5, 6, 6, 6, 6]);
    eight(rt, "8 symbols", &[0, 1, 2, 3, 4, 5, 6, 7]);
}

fn words_of_sixteen(rt: &impl Print) {
    let basis = [1u16, 2, 4, 8];
    sixteen(
        rt,
        "x",
        19,
        &basis,
        &[0, 1, 2, 3, 4, 5, 6, 7, 8, 9, 10, 11, 12, 13, 14, 15],
    );
    sixteen(
        rt,
        "x, 7 others",
        19,
        &basis,
        &[3, 1, 2, 15, 4, 0, 6, 8, 7, 9, 10, 13, 12, 13, 14, 1],
    );
    sixteen(
        rt,
        "x, 8 others",
        19,
        &basis,
        &[3, 1, 2, 15, 4, 0, 6, 8, 7, 9, 10, 13, 12, 12, 14, 1],
    );
    sixteen(
        rt,
        "x from position 8",
        19,
        &basis,
        &[0, 0, 0, 0, 0, 0, 0, 0, 8, 9, 10, 11, 12, 13, 14, 15],
    );
    sixteen(
        rt,
        "x from position 9",
        19,
        &basis,
        &[0, 0, 0, 0, 0, 0, 0, 0, 0, 9, 10, 11, 12, 13, 14, 15],
    );
}

// The same in another field, over another basis.
fn in_another_field(rt: &impl Print) {
    sixteen(
        rt,
        "3 + 7 x, 7 others",
        25,
        &[9, 3, 6, 1],
        &[2, 13, 10, 7, 8, 0, 1, 12, 3, 0, 13, 0, 4, 2, 6, 6],
    );
}

fn settings(rt: &impl Print) {
    let basis = [1u16, 2, 4];
    let word = [5u16; 8];
    setting(rt, "modulus 7", 7, &basis, 0, &word);
    setting(rt, "modulus 131072", 131072, &basis, 0, &word);
    setting(rt, "modulus 15", 15, &basis, 0, &word);
    setting(rt, "modulus 7, no basis", 7, &[], 0, &word);
    setting(rt, "basis of 2", 11, &[1, 2], 0, &word);
    setting(
        rt,
        "basis of 15",
        65579,
        &[
            1, 2, 4, 8, 16, 32, 64, 128, 256, 512, 1024, 2048, 4096, 8192, 16384,
        ],
        0,
        &word,
    );
    setting(rt, "basis with 8", 11, &[1, 2, 8], 0, &word);
    setting(rt, "dependent basis", 11, &[1, 2, 3], 0, &word);
    setting(rt, "basis with 0", 11, &[0, 1, 2], 0, &word);
    setting(rt, "dependent basis, word of 7", 11, &[1, 2, 3], 0, &[5; 7]);
}

// The codewords are the same at each shift.
fn shifts(rt: &impl Print) {
    let basis = [1u16, 2, 4];
    setting(
        rt,
        "shift 7, 3 others",
        11,
        &basis,
        7,
        &[5, 0, 5, 7, 5, 5, 5, 1],
    );
    setting(
        rt,
        "shift 7, 4 others",
        11,
        &basis,
        7,
        &[5, 0, 5, 7, 5, 2, 5, 1],
    );
    setting(rt, "shift 8", 11, &basis, 8, &[5; 8]);
    setting(rt, "basis of 2, shift 8", 11, &[1, 2], 8, &[5; 8]);
    setting(rt, "dependent basis, shift 7", 11, &[1, 2, 3], 7, &[5; 8]);
    setting(rt, "dependent basis, shift 8", 11, &[1, 2, 3], 8, &[5; 8]);
    setting(rt, "shift 8, word of 7", 11, &basis, 8, &[5; 7]);
}

fn outputs(rt: &impl Print) {
    let mut seven = [9u16; 7];
    let mut nine = [9u16; 9];
    output(rt, "output of 7", &mut seven);
    output(rt, "output of 9", &mut nine);
    let mut scratch = [7u16; 127];
    call(
        rt,
        "output of 9, scratch of 127",
        11,
        &[1, 2, 4],
        0,
        &[5; 8],
        &mut nine,
        &mut scratch,
    );
}

fn lengths(rt: &impl Print) {
    eight(rt, "no word", &[]);
    eight(rt, "word of 7", &[5; 7]);
    eight(rt, "word of 9", &[5; 9]);
    eight(rt, "word of 7, symbols 8", &[8; 7]);
    outputs(rt);
    short_scratch(rt, "scratch of 127", &[5; 8]);
    short_scratch(rt, "scratch of 127, symbols 8", &[8; 8]);
    short_scratch(rt, "scratch of 127, 4 and 4", &[5, 5, 5, 5, 6, 6, 6, 6]);
    long_scratch(rt, "scratch of 200", &[6, 5, 5, 5, 5, 5, 5, 5]);
    long_scratch(rt, "scratch of 200, word of 7", &[5; 7]);
    long_scratch(rt, "scratch of 200, symbol 8", &[8, 5, 5, 5, 5, 5, 5, 5]);
    long_scratch(rt, "scratch of 200, 4 and 4", &[5, 5, 5, 5, 6, 6, 6, 6]);
}

fn symbols(rt: &impl Print) {
    eight(rt, "symbols 8", &[8; 8]);
    eight(rt, "last symbol 8", &[5, 5, 5, 5, 5, 5, 5, 8]);
    eight(rt, "last symbol 65535", &[5, 5, 5, 5, 5, 5, 5, 65535]);
    eight(rt, "4 and 4, one of them 8", &[5, 5, 5, 5, 6, 6, 6, 8]);
}

fn main(rt: HostRuntime) {
    words_of_eight(&rt);
    words_of_sixteen(&rt);
    in_another_field(&rt);
    settings(&rt);
    shifts(&rt);
    lengths(&rt);
    symbols(&rt);
    large::large(&rt);
}
