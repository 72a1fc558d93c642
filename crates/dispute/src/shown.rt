// How certainty is shown.
use chains::Certainty;
use std::fmt;

#[derive(Clone, Copy)]
pub struct Judged(pub Certainty);

impl fmt::Display for Judged {
    fn fmt<W: fmt::Write>(&self, f: &mut fmt::Formatter<W>) -> fmt::Result {
        match self.0 {
            Certainty::Held(tonnes) => write!(f, "held with {tonnes}"),
            Certainty::Loose(tonnes) => write!(f, "loose by {tonnes}"),
        }
    }
}
