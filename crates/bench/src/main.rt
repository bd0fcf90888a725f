//! Times the steps of each kind at 1 and at 1,024 sessions. What was done goes to standard output, the times to standard
//! error. The argument, the last of several, is the number of turns; a turn is an ask, the pushes that it needs, and a leave.
#![tactic(auto)]

use bank::{AskAnswer, Bank, Fault, LaidBank, LayoutError, Sizes};
use central::Central;
use std::alloc::AllocError;
use std::env;
use std::time::Instant;
use ticket::Ticket;

// One turn of a session at bin 0: how many steps it took.
fn turn<B: Bank>(laid: &mut LaidBank<B>, session: usize) -> Result<u64, Fault> {
    let LaidBank { bank, memory } = laid;
    let steps = match bank.ask(memory, session, 0)? {
        AskAnswer::In => 2,
        AskAnswer::NotYet => {
            let _ = bank.push(memory, session, 0)?;
            3
        }
    };
    bank.leave(memory, session, 0)?;
    Ok(steps)
}

// So many turns, the sessions one after another.
fn turns<B: Bank>(laid: &mut LaidBank<B>, sessions: usize, count: usize) -> Result<u64, Fault> {
    let mut steps = 0u64;
    for session in (0..sessions).cycle().take(count) {
        steps = steps.saturating_add(turn(laid, session)?);
    }
    Ok(steps)
}

// Memory that ran out is told as the allocator tells it.
fn no_layout(e: LayoutError) -> anyhow::Error {
    match e {
        LayoutError::Refused(fault) => fault.into(),
        LayoutError::NoMemory => AllocError.into(),
    }
}

fn time<B: Bank + Default + Drop>(
    rt: &HostRuntime,
    name: &str,
    sessions: usize,
    count: usize,
) -> anyhow::Result<()>
where
    B::Record: Copy + Default,
{
    let sizes = Sizes { sessions, bins: 1 };
    let mut laid = LaidBank::<B>::lay_out(rt.alloc(), sizes, 0).map_err(no_layout)?;
    let start = Instant::now(rt)?;
    let steps = turns(&mut laid, sessions, count)?;
    let spent = start.elapsed(rt)?.as_nanos();
    let (mark, calm) = laid.bank.peek(&laid.memory, 0)?;
    println!(rt; "{name} {sessions} {steps} {mark:016X} {calm}")?;
    eprintln!(rt; "{name}, {sessions} sessions: {steps} steps in {spent} ns")?;
    Ok(())
}

fn run(rt: &HostRuntime, count: usize) -> anyhow::Result<()> {
    for sessions in [1, 1024] {
        time::<Ticket>(rt, "ticket", sessions, count)?;
        time::<Central>(rt, "central", sessions, count)?;
    }
    Ok(())
}

fn main(rt: HostRuntime) -> anyhow::Result<()> {
    let mut count = 1000;
    for word in env::args(&rt)?.skip(1) {
        count = word.as_str().parse()?;
    }
    run(&rt, count)
}
