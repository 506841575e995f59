// The layout of a proof of proximity and the line that a coin takes, by dimension.
#![tactic(auto)]

pub mod lines;
pub mod places;
pub mod spaces;
pub mod tables;

// A row or a column.
#[derive(Clone, Copy)]
pub enum Line {
    Row(usize),
    Column(usize),
}

// A position in the lent word or in the lent proof.
#[derive(Clone, Copy)]
pub enum Place {
    InWord(usize),
    InProof(usize),
}
