// Makes a delivery: reads a message file of either form on standard input and writes its stored file
// on standard output. The number that refuses it, and a write that failed, go to standard error. No
// message has 4096 bytes, so an input that goes past the buffer gets the number that all of it would
// get.
#![tactic(auto)]

ghost use Rattle.std.specs.Prelude.{◌≡◌, length};
ghost use Rattle.stored.specs.File.{file_limit};

use refusals::Refusal;
use stored::FILE_LIMIT;
use streams::{STDERR_FILENO, STDIN_FILENO, STDOUT_FILENO};

fn room() -> [u8; FILE_LIMIT]
    ensures { file_limit ≡ length result }
{
    [0; FILE_LIMIT]
}

fn written(file: &[u8]) {
    if !io::write_all(STDOUT_FILENO, file) {
        io::write_all(STDERR_FILENO, b"write failed\n");
    }
}

fn refused(e: Refusal) {
    io::write_all(STDERR_FILENO, b"refused ");
    io::print_decimal(STDERR_FILENO, u8::from(e) as u64);
    io::write_all(STDERR_FILENO, b"\n");
}

fn deliver(message: &[u8]) {
    let mut out = room();
    match delivery::make(message, &mut out) {
        Ok(n) => written(&out[..n]),
        Err(e) => refused(e),
    }
}

fn main() {
    let mut message = io::buffer();
    let n = io::read_full(STDIN_FILENO, &mut message);
    deliver(&message[..n]);
}
