//! The ticket kind: a session draws the next ticket and enters when its ticket is served.
#![tactic(auto)]

ghost use Rattle.std.specs.Prelude.{◌≡◌, true};
ghost use Rattle.ticket.specs.Word as tickets;
ghost use Rattle.bank.specs.Claims.{askers as asking};
ghost use Rattle.ticket.specs.State.{nodes_for, ticket_of};
ghost use Rattle.ticket.specs.Meaning as meaning;
ghost use Rattle.ticket.specs.Calls as calls;
ghost use Rattle.ticket.specs.Lawful.{ticket_lawful};

use bank::{AskAnswer, Bank, Claim, Fault, LeaveAnswer, LockMemory, PushAnswer, Sizes};
use word::{TICKETS, Word};

mod word;

/// The ticket that a session drew at its bin, where it waits or is inside.
#[derive(Clone, Copy, PartialEq, Eq, Debug)]
pub enum Turn {
    Waiting(u32),
    Inside(u32),
}

impl Turn {
    fn ticket(self) -> u32
        ensures { result ≡ ticket_of self }
    {
        match self {
            Turn::Waiting(ticket) | Turn::Inside(ticket) => ticket,
        }
    }
}

// What the kind is lent: lock words and the sessions' claims.
type Memory = LockMemory<Option<Claim<Turn>>>;

/// A bank of ticket locks: the sizes that layout gave it.
#[derive(Clone, Copy, PartialEq, Eq, Debug, Default)]
pub struct Ticket {
    sizes: Sizes,
}

// The kind links no line through nodes.
const NODES: usize = 0;

impl Bank for Ticket {
    type Record = Option<Claim<Turn>>;

    ghost extent = { λ k. k.sizes };

    ghost nodes_for = { nodes_for };

    ghost modulus = { tickets.count };

    ghost askers = { asking };

    ghost leaving = { meaning.leaving };

    ghost inside = { meaning.inside };

    ghost age = { meaning.age };

    ghost calm = { meaning.calm };

    ghost mark = { meaning.mark };

    ghost calm_of = { tickets.calm_of };

    ghost age_of = { tickets.age_of };

    ghost fair = { true };

    ghost line = { meaning.line };

    ghost needed = { meaning.needed };

    ghost entry_pushes = { 1 };

    ghost exit_pushes = { 0 };

    ghost lays = { calls.lays };

    ghost asks = { calls.asks };

    ghost pushes = { calls.pushes };

    ghost leaves = { calls.leaves };

    ghost peeks = { calls.peeks };

    ghost counts = { calls.counts };

    ghost lawful = { ticket_lawful };

    fn node_count(_sizes: Sizes) -> usize {
        NODES
    }

    fn sizes(&self) -> Sizes {
        self.sizes
    }

    fn layout(&mut self, memory: &mut Memory, sizes: Sizes, start: u64) -> Result<(), Fault> {
        let bank = Ticket { sizes };
        memory.admit_layout(bank.capacity(), start, TICKETS)?;
        *self = bank;
        memory.reset(u64::from(Word::fresh(start as u32)));
        Ok(())
    }

    fn ask(&mut self, memory: &mut Memory, session: usize, bin: usize) -> Result<AskAnswer, Fault> {
        let own = memory.own_record(self.capacity(), session, bin)?;
        let word = Word::lawful(memory.words[bin], self.sizes, bin)?;
        if own.is_some() {
            return Err(Fault::out_of_turn(session));
        }
        let Word { next, served } = word;
        let (stage, answer) = if word.is_calm() {
            (Turn::Inside(next), AskAnswer::In)
        } else {
            (Turn::Waiting(next), AskAnswer::NotYet)
        };
        let next = next.wrapping_add(1);
        memory.words[bin] = u64::from(Word { next, served });
        memory.records[session] = Some(Claim { bin, stage });
        Ok(answer)
    }

    fn push(
        &mut self,
        memory: &mut Memory,
        session: usize,
        bin: usize,
    ) -> Result<PushAnswer, Fault> {
        let Turn::Waiting(ticket) = memory.own_stage(self.capacity(), session, bin)? else {
            return Err(Fault::out_of_turn(session));
        };
        let word = Word::lawful(memory.words[bin], self.sizes, bin)?;
        if ticket != word.served {
            return Ok(PushAnswer::Waits);
        }
        memory.records[session] = Some(Claim {
            bin,
            stage: Turn::Inside(ticket),
        });
        Ok(PushAnswer::In)
    }

    fn leave(
        &mut self,
        memory: &mut Memory,
        session: usize,
        bin: usize,
    ) -> Result<LeaveAnswer, Fault> {
        let Turn::Inside(_) = memory.own_stage(self.capacity(), session, bin)? else {
            return Err(Fault::out_of_turn(session));
        };
        let Word { next, served } = Word::lawful(memory.words[bin], self.sizes, bin)?;
        let served = served.wrapping_add(1);
        memory.words[bin] = u64::from(Word { next, served });
        memory.records[session] = None;
        Ok(LeaveAnswer::Out)
    }

    fn peek(&self, memory: &Memory, bin: usize) -> Result<(u64, bool), Fault> {
        memory.admit_bin(self.capacity(), bin)?;
        let mark = memory.words[bin];
        let word = Word::lawful(mark, self.sizes, bin)?;
        Ok((mark, word.is_calm()))
    }

    fn ahead(&self, memory: &Memory, session: usize) -> Result<Option<usize>, Fault> {
        let Some(claim) = memory.record_of(self.capacity(), session)? else {
            return Ok(None);
        };
        let word = Word::lawful(memory.words[claim.bin], self.sizes, claim.bin)?;
        let before = word.served_before(claim.stage.ticket());
        if before >= self.sizes.sessions {
            return Err(Fault::bad_record(session));
        }
        Ok(Some(before))
    }
}
