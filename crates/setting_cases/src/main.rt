// Checks 1 to 5 at their borders, and case P4: a line for each, held to the file stdout. One that can't
// be written is let go.
#![tactic(auto)]

use field::modulus::is_symbol;
use space::values::value;

// The label, then the dimension of a setting that passes, or the number of the refusal.
fn show(rt: &impl Print, label: &str, modulus: u32, basis: &[u16], shift: u16) {
    let _ = match space::check(modulus, basis, shift) {
        Ok(_) => println!(rt; "{label}: k {}", basis.len()),
        Err(e) => println!(rt; "{label}: {e}"),
    };
}

// W_2(x), the subspace polynomial of the first two basis elements; none where the setting is refused
// or x is no symbol.
fn second_value(modulus: u32, basis: &[u16], x: u16) -> Option<u16> {
    let Ok(s) = space::check(modulus, basis, 0) else {
        return None;
    };
    let f = s.field;
    if !is_symbol(f, x) {
        return None;
    }
    Some(value(f, &s.steps, 2, x))
}

fn moduli(rt: &impl Print) {
    let basis = [1u16, 2, 4];
    show(rt, "P3 modulus 7", 7, &basis, 0);
    show(rt, "P3 modulus 15", 15, &basis, 0);
    show(rt, "P3 modulus 21", 21, &basis, 0);
    show(rt, "P3 modulus 131072", 131072, &basis, 0);
    show(rt, "modulus 0", 0, &basis, 0);
    show(rt, "modulus 4294967295", 4294967295, &basis, 0);
    show(rt, "modulus 11", 11, &basis, 0);
}

fn bases(rt: &impl Print) {
    show(rt, "no elements", 11, &[], 0);
    show(rt, "1 2", 11, &[1, 2], 0);
    show(rt, "1 2 8", 11, &[1, 2, 8], 0);
    show(rt, "1 2 3", 11, &[1, 2, 3], 0);
    show(rt, "0 1 2", 11, &[0, 1, 2], 0);
    show(rt, "1 2 2", 11, &[1, 2, 2], 0);
    show(rt, "7 3 1", 11, &[7, 3, 1], 0);
    show(rt, "1 2 4 3", 11, &[1, 2, 4, 3], 0);
}

// At most 14 elements, and no more than the field has room for.
fn most_elements(rt: &impl Print) {
    let powers = [
        1u16, 2, 4, 8, 16, 32, 64, 128, 256, 512, 1024, 2048, 4096, 8192, 16384,
    ];
    let mut dependent = powers;
    dependent[13] = 8191;
    show(rt, "12 elements", 65579, &powers[..12], 0);
    show(rt, "13 elements", 65579, &powers[..13], 0);
    show(rt, "14 elements", 65579, &powers[..14], 0);
    show(rt, "15 elements", 65579, &powers, 0);
    show(rt, "14 elements, l = 13", 8219, &powers[..14], 0);
    show(
        rt,
        "14 elements below 2^13, l = 13",
        8219,
        &dependent[..14],
        0,
    );
}

// The shift is check 4, after the basis elements and before check 5.
fn shifts(rt: &impl Print) {
    let basis = [1u16, 2, 4];
    show(rt, "shift 7", 11, &basis, 7);
    show(rt, "shift 8", 11, &basis, 8);
    show(rt, "shift 65535", 11, &basis, 65535);
    show(rt, "1 2, shift 8", 11, &[1, 2], 8);
    show(rt, "1 2 8, shift 7", 11, &[1, 2, 8], 7);
    show(rt, "1 2 3, shift 7", 11, &[1, 2, 3], 7);
    show(rt, "1 2 3, shift 8", 11, &[1, 2, 3], 8);
    show(rt, "modulus 15, shift 8", 15, &basis, 8);
    show(rt, "modulus 65579, shift 65535", 65579, &basis, 65535);
}

// q(x) = x^4 + 7 x^2 + 6 x modulo 283, for the span of 1 and 2.
fn case_four(rt: &impl Print) {
    for x in [0, 1, 2, 3, 4, 255] {
        let _ = match second_value(283, &[1, 2, 4], x) {
            Some(y) => println!(rt; "P4 q({x}) = {y}"),
            None => println!(rt; "P4 q({x}) refused"),
        };
    }
}

fn main(rt: HostRuntime) {
    moduli(&rt);
    bases(&rt);
    most_elements(&rt);
    shifts(&rt);
    case_four(&rt);
}
