// Tries all coins of the stored file on standard input, and prints the totals, or the number of the
// refusal. A write that failed is told on standard error.
#![tactic(auto)]

ghost use Rattle.std.specs.Prelude.{◌≡◌, length, ◌+◌};
ghost use Rattle.stored.specs.File.{file_limit};

use coins::Counts;
use refusals::Refusal;
use stored::FILE_LIMIT;
use streams::{STDERR_FILENO, STDIN_FILENO, STDOUT_FILENO};

// One byte more than a file may have.
fn input() -> [u8; FILE_LIMIT + 1]
    ensures { length result ≡ file_limit + 1 }
{
    [0u8; FILE_LIMIT + 1]
}

// Whether the line is written.
fn line(label: &[u8], n: u64) -> bool {
    io::write_all(STDOUT_FILENO, label)
        && io::print_decimal(STDOUT_FILENO, n)
        && io::write_all(STDOUT_FILENO, b"\n")
}

// Whether the line of the word's distance is written.
fn off(d: Option<usize>) -> bool {
    match d {
        Some(n) => line(b"off ", n as u64),
        None => io::write_all(STDOUT_FILENO, b"off far\n"),
    }
}

// Whether all lines are written.
fn show(counts: Result<Counts, Refusal>) -> bool {
    match counts {
        Ok(c) => {
            line(b"k ", c.sweep.k as u64)
                && line(b"coins ", c.sweep.coins)
                && line(b"rejects ", c.sweep.rejects)
                && line(b"reads-most ", c.sweep.most as u64)
                && off(c.off)
        }
        Err(e) => line(b"refused ", u64::from(u8::from(e))),
    }
}

fn main() {
    let mut file = input();
    let n = io::read_full(STDIN_FILENO, &mut file);
    if !show(coins::count(&file[..n])) {
        io::write_all(STDERR_FILENO, b"write failed\n");
    }
}
