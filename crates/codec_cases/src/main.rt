// The encoder and the decoder on the cases of the file stdin: P5 and P6, a larger setting, each
// refusal, and where two checks would refuse, with the shift 0; the same kinds of cases with other
// shifts; then there and back at dimension 14. A line for each call, with its output and the number of
// zeros in the scratch, held to the file stdout. Outputs come in as nines, the scratch as sevens.
#![tactic(auto)]

mod largest;
mod lines;
mod text;

use lines::{cleared, numbers, outcome};
use refusals::Refusal;
use streams::STDIN_FILENO;
use text::{at_most, decimal, list, part, place};

// ---- the cases of the file stdin

fn show(label: &[u8], r: Result<(), Refusal>, out: &[u16], scratch: &[u16]) {
    outcome(label, r);
    numbers(out);
    cleared(scratch);
}

fn call(line: &[u8], basis: &[u16], given: &[u16], out: &mut [u16], scratch: &mut [u16]) {
    let modulus = decimal(part(line, 2));
    let shift = (decimal(part(line, 4)) % 65536) as u16;
    if decimal(part(line, 1)) == 0 {
        let r = codec::encode(modulus, basis, shift, given, out, scratch);
        show(part(line, 0), r, out, scratch);
    } else {
        let r = codec::decode(modulus, basis, shift, given, out, scratch);
        show(part(line, 0), r, out, scratch);
    }
}

// With what is lent: the output and the scratch, in the lengths that the case gives.
fn lent(line: &[u8], basis: &[u16], given: &[u16]) {
    let mut out = [9u16; 64];
    let mut scratch = [7u16; 256];
    let n = at_most(&out, decimal(part(line, 6)) as usize);
    let room = at_most(&scratch, decimal(part(line, 7)) as usize);
    call(line, basis, given, &mut out[..n], &mut scratch[..room]);
}

fn case(line: &[u8]) {
    let mut basis = [0u16; 16];
    let mut given = [0u16; 64];
    let k = list(part(line, 3), &mut basis);
    let n = list(part(line, 5), &mut given);
    lent(line, &basis[..k], &given[..n]);
}

// One case after the other; each has eight marks, so that where it ends the next one begins: no index
// of a list.
fn cases(text: &[u8]) {
    let mut at = 0;
    while at < text.len() {
        let rest = &text[at..];
        case(rest);
        at += 1 + place(rest, 8);
    }
}

fn main() {
    let mut text = io::buffer();
    let n = io::read_full(STDIN_FILENO, &mut text);
    cases(&text[..n]);
    largest::largest();
}
