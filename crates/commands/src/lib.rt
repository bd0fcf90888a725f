//! What the console does with a line: parse it, carry it out, and say what came of it.
#![tactic(auto)]

mod parser;
mod replies;
mod responder;
mod syntax;

pub use parser::parse;
pub use replies::{Declined, Reply};
pub use responder::respond;
pub use syntax::{BinWords, Command, Job, KindName, Setup};
