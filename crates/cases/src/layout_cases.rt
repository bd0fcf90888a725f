//! A bank laid out on memory of its own: the largest is granted, and what is refused is told with its fault.
use bank::{Bank, Fault, LaidBank, LayoutError, Sizes};
use central::Central;
use std::process::Abort;
use std::test::*;
use ticket::Ticket;

const LARGEST: Sizes = Sizes {
    sessions: 1024,
    bins: 4096,
};

fn laid_out_below<B: Bank + Default + Drop>(
    rt: &(impl Abort + AllocGlobal),
    ages: u64,
) -> Result<(), Fail>
where
    B::Record: Copy + Default,
{
    let laid = LaidBank::<B>::lay_out(rt.alloc(), LARGEST, ages.saturating_sub(1))?;
    assert_eq!(rt; laid.memory.words.len(), 4096);
    assert!(rt; matches!(laid.bank.peek(&laid.memory, 4095), Ok((_, true))));
    let none = Sizes::default();
    for (sizes, start) in [(LARGEST, ages), (LARGEST, u64::MAX), (none, 0)] {
        let refused = LaidBank::<B>::lay_out(rt.alloc(), sizes, start).err();
        assert_eq!(rt; refused, Some(LayoutError::Refused(Fault::bad_size())));
    }
    Ok(())
}

#[test]
fn the_largest_bank_at_the_last_age(rt: HostRuntime) -> Result<(), Fail> {
    laid_out_below::<Ticket>(&rt, 4294967296)?;
    laid_out_below::<Central>(&rt, 9223372036854775808)
}

#[test]
fn why_a_bank_was_not_laid_out_is_written(rt: HostRuntime) -> Result<(), Fail> {
    let refused = LayoutError::from(Fault::bad_size()).to_string(rt.alloc())?;
    assert_eq!(rt; refused.as_str(), "refused 1 table T0");
    assert_eq!(rt;
        LayoutError::NoMemory.to_string(rt.alloc())?.as_str(),
        "no memory"
    );
    Ok(())
}
