//! The calls that move a session on at a bin, and what they answer.

#[derive(Clone, Copy, PartialEq, Eq, Debug)]
pub enum Call {
    Ask,
    Push,
    Leave,
}

#[derive(Clone, Copy, PartialEq, Eq, Debug)]
pub enum AskAnswer {
    In,
    NotYet,
}

#[derive(Clone, Copy, PartialEq, Eq, Debug)]
pub enum PushAnswer {
    Waits,
    Moved,
    In,
    Out,
}

#[derive(Clone, Copy, PartialEq, Eq, Debug)]
pub enum LeaveAnswer {
    Moved,
    Out,
}

#[derive(Clone, Copy, PartialEq, Eq, Debug)]
pub enum Answer {
    Asked(AskAnswer),
    Pushed(PushAnswer),
    Left(LeaveAnswer),
}
