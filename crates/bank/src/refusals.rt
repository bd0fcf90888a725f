//! Why a call was refused, by which layer, and where: docs/REFUSALS.md.
ghost use Rattle.std.specs.Prelude.{◌≡◌};
ghost use Rattle.bank.specs.Refusals.{number, bad_size, of_kind, no_session, no_bin, bad_record, bad_word, out_of_turn};

use std::error::Error;

#[derive(Clone, Copy, PartialEq, Eq, Debug)]
pub enum Reason {
    BadSize = 1,
    NoSession = 2,
    NoBin = 3,
    QuantityTooLarge = 4,
    SessionNotIdle = 5,
    SessionNotWorking = 6,
    SessionNotFinished = 7,
    SessionStillBusy = 8,
    OutOfRange = 9,
    OutOfTurn = 10,
}

// The number under which docs/REFUSALS.md lists the reason.
impl From<Reason> for u8 {
    ghost from_gives = { λ reason n. n ≡ number reason };

    fn from(reason: Reason) -> u8 {
        reason as u8
    }
}

#[derive(Clone, Copy, PartialEq, Eq, Debug)]
pub enum Layer {
    Table,
    Kind,
}

/// What a refusal points at: the table as a whole, a session or a bin.
#[derive(Clone, Copy, PartialEq, Eq, Debug)]
pub enum Place {
    Whole,
    Session(usize),
    Bin(usize),
}

#[derive(Clone, Copy, PartialEq, Eq, Debug)]
pub struct Fault {
    pub reason: Reason,
    pub layer: Layer,
    pub place: Place,
}

impl Error for Fault {}

impl Fault {
    /// A size or an age outside its limits, or memory of another length than told.
    pub fn bad_size() -> Self
        ensures { result ≡ bad_size }
    {
        Fault {
            reason: Reason::BadSize,
            layer: Layer::Table,
            place: Place::Whole,
        }
    }

    /// A refusal by a lock kind.
    pub fn of_kind(reason: Reason, place: Place) -> Self
        ensures { result ≡ of_kind reason place }
    {
        Fault {
            reason,
            layer: Layer::Kind,
            place,
        }
    }

    /// A call by a session that is not there.
    pub fn no_session(session: usize) -> Self
        ensures { result ≡ no_session session }
    {
        Fault::of_kind(Reason::NoSession, Place::Session(session))
    }

    /// A call at a bin that is not there.
    pub fn no_bin(bin: usize) -> Self
        ensures { result ≡ no_bin bin }
    {
        Fault::of_kind(Reason::NoBin, Place::Bin(bin))
    }

    /// A stored number out of its range, or none where one is needed, in a session's record or node.
    pub fn bad_record(session: usize) -> Self
        ensures { result ≡ bad_record session }
    {
        Fault::of_kind(Reason::OutOfRange, Place::Session(session))
    }

    /// A stored number out of its range, in a bin's lock word.
    pub fn bad_word(bin: usize) -> Self
        ensures { result ≡ bad_word bin }
    {
        Fault::of_kind(Reason::OutOfRange, Place::Bin(bin))
    }

    /// A call by a session whose turn it is not.
    pub fn out_of_turn(session: usize) -> Self
        ensures { result ≡ out_of_turn session }
    {
        Fault::of_kind(Reason::OutOfTurn, Place::Session(session))
    }
}
