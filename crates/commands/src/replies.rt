//! What the console answers to a line, and why it declines one.
ghost use Rattle.std.specs.Prelude.{◌≡◌, Some};
ghost use Rattle.commands.specs.Text.{reply_text, declined_text, declined_layout};
ghost use Rattle.commands.specs.declared.replies.Declined.TheVariants.{Refused, NoMemory};

use bank::{Answer, Fault, LayoutError};
use std::alloc::AllocError;
use std::error::Error;
use std::fmt;

/// The reply to a line. `Calm` and `Busy` tell a bin's mark, and whether the bin is calm.
#[derive(Clone, Copy, PartialEq, Eq, Debug)]
pub enum Reply {
    Laid,
    Answered(Answer),
    Ahead(Option<usize>),
    Calm(u64),
    Busy(u64),
    Word(u64),
    Poked,
}

impl fmt::Display for Reply {
    ghost output = { reply_text };

    fn fmt<W: fmt::Write>(&self, f: &mut fmt::Formatter<W>) -> fmt::Result {
        match *self {
            Reply::Laid => write!(f, "laid"),
            Reply::Answered(answer) => write!(f, "{answer}"),
            Reply::Ahead(Some(count)) => write!(f, "{count}"),
            Reply::Ahead(None) => write!(f, "none"),
            Reply::Calm(mark) => write!(f, "{mark:016X} calm"),
            Reply::Busy(mark) => write!(f, "{mark:016X} busy"),
            Reply::Word(word) => write!(f, "{word:016X}"),
            Reply::Poked => write!(f, "poked"),
        }
    }
}

/// Why a line got no reply: a lock kind refused it, it is no command, its command is not allowed now, or memory ran out.
#[derive(Clone, Copy, PartialEq, Eq, Debug)]
pub enum Declined {
    Refused(Fault),
    Unreadable,
    NotNow,
    NoMemory,
}

impl Error for Declined {}

impl fmt::Display for Declined {
    ghost output = { λ d. Some (declined_text d) };

    fn fmt<W: fmt::Write>(&self, f: &mut fmt::Formatter<W>) -> fmt::Result {
        match *self {
            Declined::Refused(fault) => write!(f, "{fault}"),
            Declined::Unreadable => write!(f, "unreadable"),
            Declined::NotNow => write!(f, "not now"),
            Declined::NoMemory => write!(f, "no memory"),
        }
    }
}

impl From<Fault> for Declined {
    ghost from_gives = { λ fault d. d ≡ Refused fault };

    fn from(fault: Fault) -> Declined {
        Declined::Refused(fault)
    }
}

impl From<LayoutError> for Declined {
    ghost from_gives = { λ e d. d ≡ declined_layout e };

    fn from(e: LayoutError) -> Declined {
        match e {
            LayoutError::Refused(fault) => Declined::Refused(fault),
            LayoutError::NoMemory => Declined::NoMemory,
        }
    }
}

impl From<AllocError> for Declined {
    ghost from_gives = { λ _ d. d ≡ NoMemory };

    fn from(_e: AllocError) -> Declined {
        Declined::NoMemory
    }
}
