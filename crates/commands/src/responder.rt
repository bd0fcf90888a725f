//! Carries out a command on a bank that is laid out.
ghost use Rattle.std.specs.Prelude.{◌≡◌};
ghost use Rattle.bank.specs.KindOf.{kind_of};
ghost use Rattle.bank.specs.Locks.{locks};
ghost use Rattle.commands.specs.Responses.{reply_of, state_after};

use super::replies::{Declined, Reply};
use super::syntax::Command;
use bank::{Bank, LockMemory, carry_out};

/// The reply to a command, and what the command leaves. A command that a bank does not allow alters nothing.
pub fn respond<B: Bank>(
    bank: &mut B,
    memory: &mut LockMemory<B::Record>,
    command: Command,
) -> Result<Reply, Declined>
    ensures reply { result ≡ reply_of (kind_of B.Bank) (locks bank.old memory.old) command }
    ensures after { locks bank.new memory.new ≡ state_after (kind_of B.Bank) (locks bank.old memory.old) command }
{
    match command {
        Command::Call(call, session, bin) => {
            Ok(Reply::Answered(carry_out(bank, memory, call, session, bin)?))
        }
        Command::Ahead(session) => Ok(Reply::Ahead(bank.ahead(memory, session)?)),
        Command::Peek(bin) => match bank.peek(memory, bin)? {
            (mark, true) => Ok(Reply::Calm(mark)),
            (mark, false) => Ok(Reply::Busy(mark)),
        },
        Command::Word(bin) => {
            let word = memory.words.get(bin).ok_or(Declined::Unreadable)?;
            Ok(Reply::Word(*word))
        }
        Command::PokeWord(bin, word) => {
            let place = memory.words.get_mut(bin).ok_or(Declined::Unreadable)?;
            *place = word;
            Ok(Reply::Poked)
        }
        _ => Err(Declined::NotNow),
    }
}
