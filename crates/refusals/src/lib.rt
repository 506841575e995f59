// Why a call is refused: the answer of a call whose checks do not pass is `Err` of the first that refuses.
#![tactic(auto)]

ghost use Rattle.std.specs.Prelude.{◌≡◌};
ghost use Rattle.refusals.specs.Refusal.{number};

use std::error::Error;
use std::fmt;

// The reasons, in the order of their numbers, 1 to 14. A call of several checks makes them in its own order.
#[derive(Clone, Copy, Debug, PartialEq, Eq)]
pub enum Refusal {
    // The modulus is not of 4 to 17 bits.
    ModulusOutOfRange,
    // The modulus has a divisor.
    ModulusReducible,
    // The basis has fewer than 3 elements, or more than `space::MAX`.
    BasisLength,
    // A basis element or the shift is no symbol.
    SettingSymbol,
    // The basis is dependent.
    BasisDependent,
    // A lent buffer or file has a wrong length.
    Length,
    // The scratch is too short.
    ScratchShort,
    // There is no coin of this number.
    NoCoin,
    // A number is no symbol.
    NoSymbol,
    // The word is no codeword.
    NoCodeword,
    // A mark is wrong, or bytes are missing.
    NoRecord,
    // A count is not that of the setting, or bytes are left over.
    WrongCount,
    // No codeword is near.
    Far,
    // The file has a shift, which the other form cannot carry.
    Shifted,
}

impl From<Refusal> for u8 {
    ghost from_gives = { λ e n. n ≡ number e };

    fn from(refusal: Refusal) -> u8 {
        match refusal {
            Refusal::ModulusOutOfRange => 1,
            Refusal::ModulusReducible => 2,
            Refusal::BasisLength => 3,
            Refusal::SettingSymbol => 4,
            Refusal::BasisDependent => 5,
            Refusal::Length => 6,
            Refusal::ScratchShort => 7,
            Refusal::NoCoin => 8,
            Refusal::NoSymbol => 9,
            Refusal::NoCodeword => 10,
            Refusal::NoRecord => 11,
            Refusal::WrongCount => 12,
            Refusal::Far => 13,
            Refusal::Shifted => 14,
        }
    }
}

impl fmt::Display for Refusal {
    fn fmt<W: fmt::Write>(&self, f: &mut fmt::Formatter<W>) -> fmt::Result {
        write!(f, "refused {}", u8::from(*self))
    }
}

impl Error for Refusal {}
