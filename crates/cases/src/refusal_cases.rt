//! The number of each reason, and how a refusal is written.
use bank::{Fault, Layer, Place, Reason};
use std::test::*;

#[test]
fn reasons_are_numbered_from_one_to_ten(rt: HostRuntime) -> Result<(), Fail> {
    let reasons = [
        Reason::BadSize,
        Reason::NoSession,
        Reason::NoBin,
        Reason::QuantityTooLarge,
        Reason::SessionNotIdle,
        Reason::SessionNotWorking,
        Reason::SessionNotFinished,
        Reason::SessionStillBusy,
        Reason::OutOfRange,
        Reason::OutOfTurn,
    ];
    for (reason, number) in reasons.into_iter().zip(1..=10u8) {
        assert_eq!(rt; u8::from(reason), number);
    }
    Ok(())
}

#[test]
fn refusals_are_written_with_number_layer_and_place(rt: HostRuntime) -> Result<(), Fail> {
    let cases = [
        (Fault::bad_size(), "refused 1 table T0"),
        (
            Fault::of_kind(Reason::NoBin, Place::Bin(4096)),
            "refused 3 kind B4096",
        ),
        (Fault::out_of_turn(1023), "refused 10 kind S1023"),
        (
            Fault {
                reason: Reason::QuantityTooLarge,
                layer: Layer::Table,
                place: Place::Bin(7),
            },
            "refused 4 table B7",
        ),
    ];
    for (fault, text) in cases {
        assert_eq!(rt; fault.to_string(rt.alloc())?.as_str(), text);
    }
    Ok(())
}
