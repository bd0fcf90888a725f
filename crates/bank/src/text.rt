//! How answers and refusals are written: docs/CONSOLE.md.
ghost use Rattle.std.specs.Prelude.{Some};
ghost use Rattle.bank.specs.Text.{layer_text, place_text, fault_text, answer_text};

use super::answers::{Answer, AskAnswer, LeaveAnswer, PushAnswer};
use super::refusals::{Fault, Layer, Place};
use std::fmt;

impl fmt::Display for Layer {
    ghost output = { λ l. Some (layer_text l) };

    fn fmt<W: fmt::Write>(&self, f: &mut fmt::Formatter<W>) -> fmt::Result {
        match *self {
            Layer::Table => write!(f, "table"),
            Layer::Kind => write!(f, "kind"),
        }
    }
}

impl fmt::Display for Place {
    ghost output = { λ p. Some (place_text p) };

    fn fmt<W: fmt::Write>(&self, f: &mut fmt::Formatter<W>) -> fmt::Result {
        match *self {
            Place::Whole => write!(f, "T0"),
            Place::Session(session) => write!(f, "S{session}"),
            Place::Bin(bin) => write!(f, "B{bin}"),
        }
    }
}

impl fmt::Display for Fault {
    ghost output = { λ x. Some (fault_text x) };

    fn fmt<W: fmt::Write>(&self, f: &mut fmt::Formatter<W>) -> fmt::Result {
        let Fault {
            reason,
            layer,
            place,
        } = *self;
        let number = u8::from(reason);
        write!(f, "refused {number} {layer} {place}")
    }
}

impl fmt::Display for Answer {
    ghost output = { λ a. Some (answer_text a) };

    fn fmt<W: fmt::Write>(&self, f: &mut fmt::Formatter<W>) -> fmt::Result {
        match *self {
            Answer::Asked(AskAnswer::In) => write!(f, "in"),
            Answer::Asked(AskAnswer::NotYet) => write!(f, "not yet"),
            Answer::Pushed(PushAnswer::Waits) => write!(f, "waits"),
            Answer::Pushed(PushAnswer::Moved) => write!(f, "moved"),
            Answer::Pushed(PushAnswer::In) => write!(f, "in"),
            Answer::Pushed(PushAnswer::Out) => write!(f, "out"),
            Answer::Left(LeaveAnswer::Moved) => write!(f, "moved"),
            Answer::Left(LeaveAnswer::Out) => write!(f, "out"),
        }
    }
}
