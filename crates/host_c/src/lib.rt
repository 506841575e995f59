// The calls of the host kit as C has them: each is the function of `host` with its name. include/proximity.h
// declares them.
#![tactic(auto)]

ghost use Rattle.lists.specs.Answers.{Answers};
ghost use Rattle.stored.specs.Reader.{file_checks};
ghost use Rattle.host.specs.Answer.{CoinBits, HostAnswer, HostConverted, HostDegree, HostLength, triple};

use host::degree;

#[unsafe(no_mangle)]
pub extern "C" fn proximity_file_refusal(file: &[u8]) -> u32
    ensures { Answers (file_checks file.now) result }
{
    host::proximity_file_refusal(file)
}

#[unsafe(no_mangle)]
pub extern "C" fn proximity_coin_bits(file: &[u8]) -> u32
    ensures { CoinBits file.now result }
{
    host::proximity_coin_bits(file)
}

#[unsafe(no_mangle)]
pub extern "C" fn proximity_check_file(file: &[u8], coin: u64, reads: &mut u32) -> u32
    ensures { HostAnswer file.now coin reads.old reads.new result }
{
    host::proximity_check_file(file, coin, reads)
}

#[unsafe(no_mangle)]
pub extern "C" fn proximity_converted_length(file: &[u8], converted: &mut usize) -> u32
    ensures { HostLength file.now converted.old converted.new result }
{
    host::proximity_converted_length(file, converted)
}

#[unsafe(no_mangle)]
pub extern "C" fn proximity_convert(file: &[u8], out: &mut [u8]) -> u32
    ensures { HostConverted file.now out.old out.new result }
{
    host::proximity_convert(file, out)
}

#[unsafe(no_mangle)]
pub extern "C" fn proximity_check_degree(
    file: &[u8],
    coin: u64,
    reads: &mut u32,
    degree: &mut u32,
    dimension: &mut u32,
) -> u32
    ensures { HostDegree file.now coin (triple reads.old degree.old dimension.old) (triple reads.new degree.new dimension.new) result }
{
    degree::proximity_check_degree(file, coin, reads, degree, dimension)
}
