// Reads a stored file of at most 40000 bytes on standard input and writes it in the other form on
// standard output. The number that refuses it, and a write that failed, go to standard error.
#![tactic(auto)]

ghost use Rattle.std.specs.Prelude.{◌≡◌, ◌+◌, ◌≤◌, length};
ghost use Rattle.stored.specs.File.{file_limit};

use refusals::Refusal;
use stored::FILE_LIMIT;
use streams::{STDERR_FILENO, STDIN_FILENO, STDOUT_FILENO};

// One byte more than a file may have.
fn input() -> [u8; FILE_LIMIT + 1]
    ensures { length result ≡ file_limit + 1 }
{
    [0u8; FILE_LIMIT + 1]
}

fn room() -> [u8; FILE_LIMIT]
    ensures { length result ≡ file_limit }
{
    [0u8; FILE_LIMIT]
}

fn written(file: &[u8]) {
    if !io::write_all(STDOUT_FILENO, file) {
        io::write_all(STDERR_FILENO, b"write failed\n");
    }
}

fn refused(e: Refusal) {
    io::write_all(STDERR_FILENO, b"refused ");
    io::print_decimal(STDERR_FILENO, u8::from(e) as u64);
    io::write_all(STDERR_FILENO, b"\n");
}

// The other form of a file within the limit is within the limit, too.
fn converted(file: &[u8]) -> Result<(), Refusal>
    requires { length file.now ≤ file_limit }
{
    let n = filing::converted_length(file)?;
    let mut out = room();
    filing::convert(file, &mut out[..n])?;
    written(&out[..n]);
    Ok(())
}

fn run() -> Result<(), Refusal> {
    let mut file = input();
    let n = io::read_full(STDIN_FILENO, &mut file);
    if FILE_LIMIT < n {
        return Err(Refusal::Length);
    }
    converted(&file[..n])
}

fn main() {
    if let Err(e) = run() {
        refused(e);
    }
}
