//! A bank with memory of its own, for whoever has no memory to lend.
ghost use Rattle.std.specs.Prelude.{◌≡◌, Some, IfOk};
ghost use Rattle.bank.specs.KindOf.{kind_of};
ghost use Rattle.bank.specs.LaidBank.{Starts, Refuses, IfRefused, layout_error_text};
ghost use Rattle.bank.specs.Locks.{locks};
ghost use Rattle.bank.specs.declared.laid.LayoutError.TheVariants.{Refused, NoMemory};

use super::Bank;
use super::calls::lengths;
use super::memory::{LockMemory, Sizes};
use super::refusals::Fault;
use std::alloc::{AllocError, Global};
use std::error::Error;
use std::fmt;

/// Why a bank was not laid out.
#[derive(Clone, Copy, PartialEq, Eq, Debug)]
pub enum LayoutError {
    Refused(Fault),
    NoMemory,
}

impl Error for LayoutError {}

impl fmt::Display for LayoutError {
    ghost output = { λ e. Some (layout_error_text e) };

    fn fmt<W: fmt::Write>(&self, f: &mut fmt::Formatter<W>) -> fmt::Result {
        match self {
            LayoutError::Refused(fault) => write!(f, "{fault}"),
            LayoutError::NoMemory => write!(f, "no memory"),
        }
    }
}

impl From<Fault> for LayoutError {
    ghost from_gives = { λ fault e. e ≡ Refused fault };

    fn from(fault: Fault) -> LayoutError {
        LayoutError::Refused(fault)
    }
}

impl From<AllocError> for LayoutError {
    ghost from_gives = { λ _ e. e ≡ NoMemory };

    fn from(_e: AllocError) -> LayoutError {
        LayoutError::NoMemory
    }
}

#[derive(Drop)]
pub struct LaidBank<B: Bank> {
    pub bank: B,
    pub memory: LockMemory<B::Record>,
}

impl<B: Bank + Default + Drop> LaidBank<B>
where
    B::Record: Copy + Default,
{
    /// A bank in a state of which all laws hold. Sizes and an age within their limits are never refused.
    pub fn lay_out(alloc: Global, sizes: Sizes, start: u64) -> Result<Self, LayoutError>
        ensures laid { IfOk result (λ laid. Starts (kind_of B.Bank) sizes start (locks laid.bank laid.memory)) }
        ensures refused { IfRefused result (Refuses (kind_of B.Bank) sizes start) }
    {
        let mut memory = LockMemory::allocate(alloc, lengths::<B>(sizes)?, B::Record::default())?;
        let mut bank = B::default();
        bank.layout(&mut memory, sizes, start)?;
        Ok(LaidBank { bank, memory })
    }
}
