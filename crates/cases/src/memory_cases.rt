//! Sizes, ages and lengths: everything wrong with them is 1 at T0.
use bank::{Bank, Call, Fault, Lengths, LockMemory, Sizes, carry_out, lengths};
use central::Central;
use std::process::Abort;
use std::test::*;
use ticket::Ticket;

const TICKET_AGES: u64 = 4294967296;

const CENTRAL_AGES: u64 = 9223372036854775808;

fn sizes(sessions: usize, bins: usize) -> Sizes {
    Sizes { sessions, bins }
}

fn lengths_are_told<B: Bank>(rt: &impl Abort) -> Result<(), Fail> {
    let told = Lengths {
        words: 4096,
        records: 1024,
        nodes: 0,
    };
    assert_eq!(rt; lengths::<B>(sizes(1024, 4096)), Ok(told));
    for (n, m) in [(0, 1), (1, 0), (1025, 1), (1, 4097)] {
        assert_eq!(rt; lengths::<B>(sizes(n, m)), Err(Fault::bad_size()));
    }
    Ok(())
}

#[test]
fn lengths_are_told_for_sizes_within_their_limits(rt: HostRuntime) -> Result<(), Fail> {
    lengths_are_told::<Ticket>(&rt)?;
    lengths_are_told::<Central>(&rt)
}

// Lays out a bank of three sessions and two bins on memory of other lengths, and calls it there.
fn refuses_other_lengths<B: Bank + Default + Drop>(
    rt: &(impl Abort + AllocGlobal),
    wrong: Lengths,
) -> Result<(), Fail>
where
    B::Record: Copy + Default,
{
    let right = Lengths {
        words: 2,
        records: 3,
        nodes: 0,
    };
    let none = B::Record::default();
    let mut bank = B::default();
    let mut memory = LockMemory::allocate(rt.alloc(), right, none)?;
    let mut other = LockMemory::allocate(rt.alloc(), wrong, none)?;
    assert!(rt; bank.layout(&mut memory, sizes(3, 2), 7).is_ok());
    assert_eq!(rt;
        bank.layout(&mut other, sizes(3, 2), 7),
        Err(Fault::bad_size())
    );
    for call in [Call::Ask, Call::Push, Call::Leave] {
        let refused = carry_out(&mut bank, &mut other, call, 9, 9).err();
        assert_eq!(rt; refused, Some(Fault::bad_size()));
    }
    assert_eq!(rt; bank.peek(&other, 9).err(), Some(Fault::bad_size()));
    assert_eq!(rt; bank.ahead(&other, 9).err(), Some(Fault::bad_size()));
    Ok(())
}

#[test]
fn memory_one_too_long_or_too_short(rt: HostRuntime) -> Result<(), Fail> {
    for (words, records, nodes) in [(1, 3, 0), (3, 3, 0), (2, 2, 0), (2, 4, 0), (2, 3, 1)] {
        let wrong = Lengths {
            words,
            records,
            nodes,
        };
        refuses_other_lengths::<Ticket>(&rt, wrong)?;
        refuses_other_lengths::<Central>(&rt, wrong)?;
    }
    Ok(())
}

// A bank never laid out has no sizes; the last age is granted, and the number of ages is refused.
fn lays_out_below<B: Bank + Default + Drop>(
    rt: &(impl Abort + AllocGlobal),
    ages: u64,
) -> Result<(), Fail>
where
    B::Record: Copy + Default,
{
    let mut bank = B::default();
    let one = Lengths {
        words: 1,
        records: 1,
        nodes: 0,
    };
    let mut memory = LockMemory::allocate(rt.alloc(), one, B::Record::default())?;
    assert_eq!(rt; bank.peek(&memory, 0).err(), Some(Fault::bad_size()));
    for size in [0, 2, 1025, 4097] {
        assert_eq!(rt;
            bank.layout(&mut memory, sizes(size, 1), 0),
            Err(Fault::bad_size())
        );
        assert_eq!(rt;
            bank.layout(&mut memory, sizes(1, size), 0),
            Err(Fault::bad_size())
        );
    }
    for start in [ages, u64::MAX] {
        assert_eq!(rt;
            bank.layout(&mut memory, sizes(1, 1), start),
            Err(Fault::bad_size())
        );
    }
    assert_eq!(rt; bank.peek(&memory, 0).err(), Some(Fault::bad_size()));
    let last = ages.saturating_sub(1);
    assert!(rt; bank.layout(&mut memory, sizes(1, 1), last).is_ok());
    assert!(rt; bank.peek(&memory, 0).is_ok());
    Ok(())
}

#[test]
fn ages_below_the_modulus(rt: HostRuntime) -> Result<(), Fail> {
    lays_out_below::<Ticket>(&rt, TICKET_AGES)?;
    lays_out_below::<Central>(&rt, CENTRAL_AGES)
}
