// Words of dimension 6 or below, whose one coin reads them whole.
use super::answers::Checked;

pub fn only_coin(rt: &impl Print) {
    let basis = [1u16, 2, 4, 8, 16, 32];
    let word = [0u16; 64];
    let _ = println!(rt;
        "k 6, coin 0: {}",
        Checked(verifier::check(283, &basis, 0, &word, &[], 0))
    );
    let _ = println!(rt;
        "k 6, coin 1: {}",
        Checked(verifier::check(283, &basis, 0, &word, &[], 1))
    );
}

// The squares of GF(16) in order, at two shifts, and the fives of GF(8) with a six among them.
pub fn words(rt: &impl Print) {
    let squares = [0u16, 1, 4, 5, 3, 2, 7, 6, 12, 13, 8, 9, 15, 14, 11, 10];
    let fives = [5u16, 5, 5, 6, 5, 5, 5, 5];
    let _ = println!(rt;
        "k 4, squares: {}",
        Checked(verifier::check(19, &[1, 2, 4, 8], 0, &squares, &[], 0))
    );
    let _ = println!(rt;
        "k 4, squares, shift 5: {}",
        Checked(verifier::check(19, &[1, 2, 4, 8], 5, &squares, &[], 0))
    );
    let _ = println!(rt;
        "k 3, fives and a six: {}",
        Checked(verifier::check(11, &[1, 2, 4], 0, &fives, &[], 0))
    );
}
