//! Damaged records of the ticket kind: which number, layer and place each call gives.
use super::damage::{claim, damaged, refusal};
use bank::{Bank, Call, Fault, Place, Reason};
use std::test::*;
use ticket::{Ticket, Turn};

#[test]
fn own_record_before_the_word_before_the_turn(rt: HostRuntime) -> Result<(), Fail> {
    let bad_record = Some(Fault::of_kind(Reason::OutOfRange, Place::Session(0)));
    let bad_word = Some(Fault::of_kind(Reason::OutOfRange, Place::Bin(0)));
    let turn = Some(Fault::out_of_turn(0));
    let unlawful = 0x0000000400000000;
    let cases = [
        (unlawful, claim(2, Turn::Inside(0)), Call::Ask, bad_record),
        (unlawful, claim(2, Turn::Inside(0)), Call::Push, bad_record),
        (unlawful, claim(2, Turn::Inside(0)), Call::Leave, bad_record),
        (unlawful, claim(1, Turn::Inside(0)), Call::Ask, bad_word),
        (unlawful, claim(1, Turn::Inside(0)), Call::Push, turn),
        (unlawful, claim(1, Turn::Inside(0)), Call::Leave, turn),
        (unlawful, claim(0, Turn::Inside(0)), Call::Push, turn),
        (unlawful, claim(0, Turn::Inside(0)), Call::Leave, bad_word),
        (unlawful, claim(0, Turn::Waiting(0)), Call::Push, bad_word),
        (unlawful, claim(0, Turn::Waiting(0)), Call::Leave, turn),
        (unlawful, None, Call::Ask, bad_word),
        (unlawful, None, Call::Push, turn),
        (unlawful, None, Call::Leave, turn),
        (0x0000000300000000, None, Call::Ask, None),
        (
            0x0000000300000000,
            claim(0, Turn::Waiting(9)),
            Call::Push,
            None,
        ),
        (
            0x0000000300000000,
            claim(0, Turn::Inside(9)),
            Call::Leave,
            None,
        ),
    ];
    for (word, record, call, expected) in cases {
        assert_eq!(rt; refusal::<Ticket>(&rt, 3, word, record, call)?, expected);
    }
    Ok(())
}

#[test]
fn ahead_reads_the_record_then_the_word_and_then_counts(rt: HostRuntime) -> Result<(), Fail> {
    let bad_record = Err(Fault::of_kind(Reason::OutOfRange, Place::Session(0)));
    let bad_word = Err(Fault::of_kind(Reason::OutOfRange, Place::Bin(0)));
    let cases = [
        (0x0000000400000000, claim(2, Turn::Waiting(0)), bad_record),
        (0x0000000400000000, claim(0, Turn::Waiting(0)), bad_word),
        (0x0000000300000000, claim(0, Turn::Waiting(3)), bad_record),
        (0x0000000300000000, claim(0, Turn::Waiting(2)), Ok(Some(2))),
        (0x0000000300000000, claim(0, Turn::Inside(0)), Ok(Some(0))),
        (0x0000000400000000, None, Ok(None)),
    ];
    for (word, record, expected) in cases {
        let laid = damaged::<Ticket>(&rt, 3, word, record)?;
        assert_eq!(rt; laid.bank.ahead(&laid.memory, 0), expected);
    }
    Ok(())
}
