// What came of the calls, as text.
use refusals::Refusal;
use std::fmt;
use verifier::Verdict;

// Of the checker.
#[derive(Clone, Copy)]
pub struct Checked(pub Result<Verdict, Refusal>);

impl fmt::Display for Checked {
    fn fmt<W: fmt::Write>(&self, f: &mut fmt::Formatter<W>) -> fmt::Result {
        match self.0 {
            Ok(Verdict::Accept(n)) => write!(f, "accepted, reads {n}"),
            Ok(Verdict::Reject(r)) => write!(
                f,
                "rejected, reads {}, degree {} of {} dimensions",
                r.reads, r.degree, r.dimension
            ),
            Err(e) => write!(f, "{e}"),
        }
    }
}

pub fn is_accepted(v: Result<Verdict, Refusal>) -> bool {
    matches!(v, Ok(Verdict::Accept(_)))
}

// Of the encoder and the prover.
#[derive(Clone, Copy)]
pub struct Made(pub Result<(), Refusal>);

impl fmt::Display for Made {
    fn fmt<W: fmt::Write>(&self, f: &mut fmt::Formatter<W>) -> fmt::Result {
        match self.0 {
            Ok(()) => write!(f, "done"),
            Err(e) => write!(f, "{e}"),
        }
    }
}
