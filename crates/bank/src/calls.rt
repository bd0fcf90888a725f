//! Calls that work over any lock kind.
ghost use Rattle.std.specs.Prelude.{◌≡◌};
ghost use Rattle.bank.specs.Calls.{answer_of, state_after, lengths_told};
ghost use Rattle.bank.specs.Kind.{Reached};
ghost use Rattle.bank.specs.KindOf.{kind_of};
ghost use Rattle.bank.specs.Laws.{Lawful};
ghost use Rattle.bank.specs.Locks.{locks};

use super::Bank;
use super::answers::{Answer, Call};
use super::memory::{Lengths, LockMemory, Sizes};
use super::refusals::Fault;

/// The lengths that the memory of a bank must have for its sizes.
pub fn lengths<B: Bank>(sizes: Sizes) -> Result<Lengths, Fault>
    ensures { result ≡ lengths_told (kind_of B.Bank) sizes }
{
    if !sizes.within_limits() {
        return Err(Fault::bad_size());
    }
    Ok(Lengths {
        words: sizes.bins,
        records: sizes.sessions,
        nodes: B::node_count(sizes),
    })
}

/// Carries out one call. Whatever the kind, all laws of `Lawful` hold, and a reached state stays reached.
pub fn carry_out<B: Bank>(
    bank: &mut B,
    memory: &mut LockMemory<B::Record>,
    call: Call,
    session: usize,
    bin: usize,
) -> Result<Answer, Fault>
    ensures answer { result ≡ answer_of (kind_of B.Bank) call (locks bank.old memory.old) session bin }
    ensures after { locks bank.new memory.new ≡ state_after (kind_of B.Bank) call (locks bank.old memory.old) session bin }
    ensures reached { Reached (kind_of B.Bank) (locks bank.old memory.old) → Reached (kind_of B.Bank) (locks bank.new memory.new) }
    ensures laws { Lawful (kind_of B.Bank) }
{
    match call {
        Call::Ask => bank.ask(memory, session, bin).map(Answer::Asked),
        Call::Push => bank.push(memory, session, bin).map(Answer::Pushed),
        Call::Leave => bank.leave(memory, session, bin).map(Answer::Left),
    }
}
