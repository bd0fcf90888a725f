//! A bank whose memory somebody has altered.
use bank::{Bank, Call, Claim, Fault, LaidBank, Sizes, carry_out};
use std::process::Abort;
use std::test::*;

pub(crate) fn claim<T>(bin: usize, stage: T) -> Option<Claim<T>> {
    Some(Claim { bin, stage })
}

/// A bank of two bins with this word at bin 0 and this record of session 0.
pub(crate) fn damaged<B: Bank + Default + Drop>(
    rt: &(impl Abort + AllocGlobal),
    sessions: usize,
    word: u64,
    record: B::Record,
) -> Result<LaidBank<B>, Fail>
where
    B::Record: Copy + Default,
{
    let sizes = Sizes { sessions, bins: 2 };
    let mut laid = LaidBank::lay_out(rt.alloc(), sizes, 0)?;
    assert!(rt; laid.memory.words.len() > 0 && laid.memory.records.len() > 0);
    laid.memory.words[0] = word;
    laid.memory.records[0] = record;
    Ok(laid)
}

/// What a call of session 0 at bin 0 is refused by.
pub(crate) fn refusal<B: Bank + Default + Drop>(
    rt: &(impl Abort + AllocGlobal),
    sessions: usize,
    word: u64,
    record: B::Record,
    call: Call,
) -> Result<Option<Fault>, Fail>
where
    B::Record: Copy + Default,
{
    let mut laid = damaged::<B>(rt, sessions, word, record)?;
    Ok(carry_out(&mut laid.bank, &mut laid.memory, call, 0, 0).err())
}
