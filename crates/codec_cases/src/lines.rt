// Parts of the lines that are printed: what came of a call, a list of symbols, a text with its number, and
// the number of zeros in a scratch. A case's label is any bytes.
use case_lines::zeros;
use refusals::Refusal;
use streams::STDOUT_FILENO;

pub fn outcome(label: &[u8], r: Result<(), Refusal>) {
    io::write_all(STDOUT_FILENO, label);
    match r {
        Ok(()) => {
            io::write_all(STDOUT_FILENO, b" done,");
        }
        Err(e) => {
            figure(b" refused ", u64::from(u8::from(e)));
            io::write_all(STDOUT_FILENO, b",");
        }
    }
}

pub fn numbers(xs: &[u16]) {
    for x in xs {
        figure(b" ", u64::from(*x));
    }
}

// A text, and a number behind it.
pub fn figure(what: &[u8], n: u64) {
    io::write_all(STDOUT_FILENO, what);
    io::print_decimal(STDOUT_FILENO, n);
}

// The number of zeros in the scratch, and the end of the line.
pub fn cleared(scratch: &[u16]) {
    figure(b", zeros ", zeros(scratch) as u64);
    io::write_all(STDOUT_FILENO, b"\n");
}
