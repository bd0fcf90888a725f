//! The commands of the console, one to a line: docs/CONSOLE.md.
use bank::{Call, Sizes};

/// A lock kind's name.
#[derive(Clone, Copy, PartialEq, Eq, Debug)]
pub enum KindName {
    Queuing,
    Ticket,
    Central,
}

/// What a table or a bank is laid out with.
#[derive(Clone, Copy, PartialEq, Eq, Debug)]
pub struct Setup {
    pub kind: KindName,
    pub sizes: Sizes,
    pub start: u64,
}

/// The four words of a bin.
#[derive(Clone, Copy, PartialEq, Eq, Debug)]
pub struct BinWords {
    pub article: u32,
    pub quantity: u32,
    pub reserved: u32,
    pub stamp: u32,
}

/// What a session does at a bin of the table.
#[derive(Clone, Copy, PartialEq, Eq, Debug)]
pub enum Job {
    Lookup,
    Set(BinWords),
    Adjust(i32, u32),
}

/// A command, with its numbers in the line's order.
#[derive(Clone, Copy, PartialEq, Eq, Debug)]
pub enum Command {
    Layout(Setup),
    Bank(Setup),
    Load(usize, BinWords),
    Open,
    Begin(usize, usize, Job),
    Step(usize),
    Collect(usize),
    Ahead(usize),
    Peek(usize),
    Close,
    Read(usize),
    Call(Call, usize, usize),
    Word(usize),
    Node(usize),
    PokeWord(usize, u64),
    PokeBin(usize, BinWords),
}
