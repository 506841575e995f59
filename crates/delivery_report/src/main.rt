// Reads up to 200 stored files, one after the other, on standard input, and prints a line for each
// and the total. It holds a window on the input: no file that is accepted has more bytes. A write
// that failed is told on standard error.
#![tactic(auto)]

ghost use Rattle.std.specs.Prelude.{◌≡◌, length};
ghost use Rattle.stored.specs.File.{file_limit};

use refusals::Refusal;
use report::{Entry, Total};
use stored::FILE_LIMIT;
use streams::{STDERR_FILENO, STDIN_FILENO, STDOUT_FILENO};

fn window() -> [u8; FILE_LIMIT]
    ensures { length result ≡ file_limit }
{
    [0u8; FILE_LIMIT]
}

// Whether a word and a number are written.
fn pair(word: &[u8], n: u64) -> bool {
    io::write_all(STDOUT_FILENO, word) && io::print_decimal(STDOUT_FILENO, n)
}

// Whether the line of a file is written.
fn show(place: u64, file: Result<Entry, Refusal>) -> bool {
    match file {
        Ok(e) => {
            pair(b"", place)
                && pair(b" ", e.sweep.k as u64)
                && pair(b" ", e.sweep.coins)
                && pair(b" ", e.sweep.rejects)
                && pair(b" ", e.sweep.most as u64)
                && io::write_all(STDOUT_FILENO, b"\n")
        }
        Err(e) => {
            pair(b"refused ", place)
                && pair(b" ", u64::from(u8::from(e)))
                && io::write_all(STDOUT_FILENO, b"\n")
        }
    }
}

// Whether the last line is written.
fn show_total(t: Total) -> bool {
    pair(b"total ", t.files)
        && pair(b" ", t.coins)
        && pair(b" ", t.rejects)
        && io::write_all(STDOUT_FILENO, b"\n")
}

// Whether all lines are written.
fn run() -> bool {
    let mut bytes = window();
    let mut n: usize = 0;
    let mut report = report::start();
    while report::goes_on(report) {
        n += io::read_full(STDIN_FILENO, &mut bytes[n..]);
        if n == 0 {
            break;
        }
        report = report::next(report, &bytes[..n]);
        let Some(latest) = report.latest else {
            break;
        };
        if !show(report.read, latest) {
            return false;
        }
        let Ok(e) = latest else {
            break;
        };
        report::window::slide(&mut bytes, e.end, n);
        n -= e.end;
    }
    show_total(report.total)
}

fn main() {
    if !run() {
        io::write_all(STDERR_FILENO, b"write failed\n");
    }
}
