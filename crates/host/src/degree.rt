// The checker for one coin, with the degree behind a reject.
ghost use Rattle.host.specs.Answer.{HostDegree, triple};

use super::code;
use verifier::Verdict;

// As `proximity_check_file`, and beside the number of symbols read `degree` is the least degree of a
// polynomial through them, and `dimension` that of their space. With accept these two are 0. A refusal
// leaves all three numbers as they came.
//
// Ruled out: the dimension of the file in place of that of the symbols read; a degree that accept
// tells.
pub fn proximity_check_degree(
    file: &[u8],
    coin: u64,
    reads: &mut u32,
    degree: &mut u32,
    dimension: &mut u32,
) -> u32
    ensures { HostDegree file.now coin (triple reads.old degree.old dimension.old) (triple reads.new degree.new dimension.new) result }
{
    match stored::check_file(file, coin) {
        Ok(Verdict::Accept(n)) => {
            *reads = n as u32;
            *degree = 0;
            *dimension = 0;
            0
        }
        Ok(Verdict::Reject(r)) => {
            *reads = r.reads as u32;
            *degree = r.degree as u32;
            *dimension = r.dimension as u32;
            100
        }
        Err(e) => code(e),
    }
}
