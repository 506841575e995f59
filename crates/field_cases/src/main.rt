// The field calls on the worked examples of FIPS 197, section 4, on the cases P1 to P3, and at the
// borders of the checks: a line for each, held to the file stdout. One that can't be written is let go.
#![tactic(auto)]

use refusals::Refusal;

fn show(rt: &impl Print, label: &str, v: Result<u16, Refusal>) {
    let _ = match v {
        Ok(x) => println!(rt; "{label} = {x}"),
        Err(e) => println!(rt; "{label} {e}"),
    };
}

// A product modulo 283 in the standard's own notation: two hex digits.
fn bytes(rt: &impl Print, a: u16, b: u16) {
    let _ = match field::product(283, a, b) {
        Ok(x) => println!(rt; "{{{a:02x}}} * {{{b:02x}}} = {x:02x}"),
        Err(e) => println!(rt; "{{{a:02x}}} * {{{b:02x}}} {e}"),
    };
}

fn fips(rt: &impl Print) {
    bytes(rt, 0x57, 0x83);
    bytes(rt, 0x57, 0x02);
    bytes(rt, 0xae, 0x02);
    bytes(rt, 0x47, 0x02);
    bytes(rt, 0x8e, 0x02);
    bytes(rt, 0x57, 0x13);
    bytes(rt, 0x53, 0xca);
}

fn products(rt: &impl Print) {
    show(rt, "P1 2 * 4", field::product(11, 2, 4));
    show(rt, "P1 5 * 5", field::product(11, 5, 5));
    show(rt, "P1 3 * 6", field::product(11, 3, 6));
    show(rt, "P2 87 * 131", field::product(283, 87, 131));
    show(rt, "P2 83 * 202", field::product(283, 83, 202));
}

fn refusals(rt: &impl Print) {
    show(rt, "P3 modulus 7", field::product(7, 1, 1));
    show(rt, "P3 modulus 15", field::product(15, 1, 1));
    show(rt, "P3 modulus 21", field::product(21, 1, 1));
    show(rt, "P3 modulus 131072", field::product(131072, 1, 1));
}

// Each side of the borders, and the lowest number where two checks would refuse.
fn borders(rt: &impl Print) {
    show(rt, "modulus 7, 9 + 9", field::sum(7, 9, 9));
    show(rt, "modulus 8, 9 + 9", field::sum(8, 9, 9));
    show(rt, "modulus 11, 7 + 4", field::sum(11, 7, 4));
    show(rt, "modulus 11, 8 + 7", field::sum(11, 8, 7));
    show(rt, "modulus 11, 7 + 8", field::sum(11, 7, 8));
    show(rt, "modulus 11, 7 * 7", field::product(11, 7, 7));
    show(rt, "modulus 11, 7 * 8", field::product(11, 7, 8));
    show(rt, "modulus 283, 255 * 255", field::product(283, 255, 255));
    show(rt, "modulus 283, 256 * 0", field::product(283, 256, 0));
    show(
        rt,
        "modulus 131053, 65535 * 65535",
        field::product(131053, 65535, 65535),
    );
    show(
        rt,
        "modulus 131071, 65535 * 65535",
        field::product(131071, 65535, 65535),
    );
}

fn main(rt: HostRuntime) {
    fips(&rt);
    products(&rt);
    refusals(&rt);
    borders(&rt);
}
