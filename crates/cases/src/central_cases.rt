//! Damaged records of the central kind: which number, layer and place each call gives.
use super::damage::{claim, refusal};
use bank::{Call, Fault, Place, Reason};
use central::{Central, Stage};
use std::test::*;

const LOCKED: u64 = 9223372036854775808;

#[test]
fn a_remembered_word_is_tested_by_the_swap_alone(rt: HostRuntime) -> Result<(), Fail> {
    let bad_record = Some(Fault::of_kind(Reason::OutOfRange, Place::Session(0)));
    let turn = Some(Fault::out_of_turn(0));
    let cases = [
        (claim(2, Stage::Look), Call::Ask, bad_record),
        (claim(2, Stage::Inside), Call::Push, bad_record),
        (claim(2, Stage::Inside), Call::Leave, bad_record),
        (claim(0, Stage::Swap(LOCKED)), Call::Ask, turn),
        (claim(0, Stage::Swap(LOCKED)), Call::Push, bad_record),
        (claim(0, Stage::Swap(LOCKED)), Call::Leave, turn),
        (claim(1, Stage::Swap(LOCKED)), Call::Push, turn),
        (claim(0, Stage::Swap(5)), Call::Push, None),
        (claim(0, Stage::Inside), Call::Push, turn),
        (claim(1, Stage::Inside), Call::Leave, turn),
        (claim(0, Stage::Inside), Call::Leave, None),
        (None, Call::Push, turn),
        (None, Call::Leave, turn),
        (None, Call::Ask, None),
    ];
    for (record, call, expected) in cases {
        assert_eq!(rt; refusal::<Central>(&rt, 1, 0, record, call)?, expected);
    }
    Ok(())
}
