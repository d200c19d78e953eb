// How a fault and a refusal read in print.
ghost use Rattle.std.specs.Prelude.{Some};
ghost use Rattle.model.specs.Printing.{cause_text, fault_text, refusal_text};

use crate::types::{Cause, Fault, Refusal};
use std::error::Error;
use std::fmt;

impl fmt::Display for Cause {
    ghost output = { λ cause. Some (cause_text cause) };

    fn fmt<W: fmt::Write>(&self, f: &mut fmt::Formatter<W>) -> fmt::Result {
        f.write_str(match self {
            Cause::PastEnd => "past the end",
            Cause::Dead => "dead",
        })
    }
}

impl fmt::Display for Fault {
    ghost output = { λ fault. Some (fault_text fault) };

    fn fmt<W: fmt::Write>(&self, f: &mut fmt::Formatter<W>) -> fmt::Result {
        write!(
            f,
            "{}, place {}, depth {}",
            self.cause, self.place, self.depth
        )
    }
}

impl fmt::Display for Refusal {
    ghost output = { λ refusal. Some (refusal_text refusal) };

    fn fmt<W: fmt::Write>(&self, f: &mut fmt::Formatter<W>) -> fmt::Result {
        write!(f, "{} {}", self.number(), self.word())
    }
}

impl Error for Fault {}

impl Error for Refusal {}
