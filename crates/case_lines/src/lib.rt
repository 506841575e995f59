// Parts of the lines that programs with cases print: a list of symbols, and the number of zeros in a
// scratch.
#![tactic(auto)]

use std::fmt;

pub fn zeros(xs: &[u16]) -> usize {
    xs.iter().filter(|x| **x == 0).count()
}

// Symbols in a line: each has a space before it.
#[derive(Clone, Copy)]
pub struct Symbols<'a>(pub &'a [u16]);

impl fmt::Display for Symbols<'_> {
    fn fmt<W: fmt::Write>(&self, f: &mut fmt::Formatter<W>) -> fmt::Result {
        for x in self.0 {
            write!(f, " {x}")?;
        }
        Ok(())
    }
}
