//! One session and 1,024 sessions at one bin: a line served in the order of its asks, and turns one after another.
use bank::{AskAnswer, Bank, LaidBank, LeaveAnswer, PushAnswer, Sizes};
use central::Central;
use std::process::Abort;
use std::test::*;
use ticket::Ticket;

fn line_of(rt: &(impl Abort + AllocGlobal), sessions: usize, start: u64) -> Result<(), Fail> {
    let sizes = Sizes { sessions, bins: 1 };
    let LaidBank {
        mut bank,
        mut memory,
    } = LaidBank::<Ticket>::lay_out(rt.alloc(), sizes, start)?;
    for session in 0..sessions {
        assert!(rt; bank.ask(&mut memory, session, 0).is_ok());
        assert_eq!(rt; bank.ahead(&memory, session), Ok(Some(session)));
    }
    for session in 0..sessions {
        if session > 0 {
            assert_eq!(rt; bank.push(&mut memory, session, 0), Ok(PushAnswer::In));
        }
        if session + 2 < sessions {
            assert_eq!(rt;
                bank.push(&mut memory, session + 2, 0),
                Ok(PushAnswer::Waits)
            );
        }
        assert_eq!(rt; bank.leave(&mut memory, session, 0), Ok(LeaveAnswer::Out));
    }
    assert!(rt; matches!(bank.peek(&memory, 0), Ok((_, true))));
    Ok(())
}

#[test]
fn one_session(rt: HostRuntime) -> Result<(), Fail> {
    line_of(&rt, 1, 4294967295)
}

#[test]
fn as_many_sessions_as_there_may_be(rt: HostRuntime) -> Result<(), Fail> {
    line_of(&rt, 1024, 0)?;
    line_of(&rt, 1024, 4294966784)
}

// Every session in turn asks, enters and leaves.
fn turns_of(rt: &(impl Abort + AllocGlobal), sessions: usize, start: u64) -> Result<u64, Fail> {
    let sizes = Sizes { sessions, bins: 1 };
    let LaidBank {
        mut bank,
        mut memory,
    } = LaidBank::<Central>::lay_out(rt.alloc(), sizes, start)?;
    for session in 0..sessions {
        assert_eq!(rt; bank.ask(&mut memory, session, 0), Ok(AskAnswer::NotYet));
        assert_eq!(rt; bank.ahead(&memory, session), Ok(None));
        assert_eq!(rt; bank.push(&mut memory, session, 0), Ok(PushAnswer::In));
        assert!(rt; matches!(bank.peek(&memory, 0), Ok((_, false))));
        assert_eq!(rt; bank.leave(&mut memory, session, 0), Ok(LeaveAnswer::Out));
    }
    match bank.peek(&memory, 0) {
        Ok((mark, true)) => Ok(mark),
        _ => Err(Fail::new("the bin is not calm")),
    }
}

#[test]
fn central_turns_go_round(rt: HostRuntime) -> Result<(), Fail> {
    assert_eq!(rt; turns_of(&rt, 1, 9223372036854775807)?, 0);
    assert_eq!(rt; turns_of(&rt, 1024, 9223372036854775806)?, 1022);
    Ok(())
}
