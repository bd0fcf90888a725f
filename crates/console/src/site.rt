//! What is laid out: a bank of one kind with its memory.
ghost use Rattle.std.specs.Prelude.{IfOk, IfErr};
ghost use Rattle.console.specs.Sites.{New, Declines, CarriesOut};

use bank::LaidBank;
use central::Central;
use commands::{Command, Declined, KindName, Reply, Setup, respond};
use std::alloc::Global;
use ticket::Ticket;

/// A bank of one kind with its memory.
#[derive(Drop)]
pub enum Site {
    Ticket(LaidBank<Ticket>),
    Central(LaidBank<Central>),
}

fn new_site(alloc: Global, setup: Setup) -> Result<Site, Declined>
    ensures laid { IfOk result (New setup.kind setup) }
    ensures declined { IfErr result (Declines setup.kind setup) }
{
    let Setup { kind, sizes, start } = setup;
    match kind {
        KindName::Ticket => Ok(Site::Ticket(LaidBank::lay_out(alloc, sizes, start)?)),
        KindName::Central => Ok(Site::Central(LaidBank::lay_out(alloc, sizes, start)?)),
        KindName::Queuing => Err(Declined::NotNow),
    }
}

/// Carries out a command on what is laid out, if anything is. `bank` starts over; a bank that is declined leaves what
/// was there.
pub fn run_command(
    alloc: Global,
    site: &mut Option<Site>,
    command: Command,
) -> Result<Reply, Declined>
    ensures { CarriesOut site.old command result site.new }
{
    if let Command::Bank(setup) = command {
        *site = Some(new_site(alloc, setup)?);
        return Ok(Reply::Laid);
    }
    match site {
        None => Err(Declined::NotNow),
        Some(Site::Ticket(laid)) => respond(&mut laid.bank, &mut laid.memory, command),
        Some(Site::Central(laid)) => respond(&mut laid.bank, &mut laid.memory, command),
    }
}
