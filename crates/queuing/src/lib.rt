//! The queuing kind: sessions line up by exchanging the lock word and hand their turns on through their nodes.
#![tactic(auto)]

ghost use Rattle.std.specs.Prelude.{true};
ghost use Rattle.bank.specs.Claims.{askers as asking};
ghost use Rattle.queuing.specs.Word as words;
ghost use Rattle.queuing.specs.State.{nodes_for};
ghost use Rattle.queuing.specs.Meaning as meaning;
ghost use Rattle.queuing.specs.Calls as calls;
ghost use Rattle.queuing.specs.Lawful.{queuing_lawful};

use actions::Actor;
use bank::{AskAnswer, Bank, Claim, Fault, LeaveAnswer, LockMemory, PushAnswer, Sizes};
use word::VERSIONS;

mod actions;
mod ahead;
mod word;

pub use word::Word;

/// The action that a session does next at its bin. Before its entry it may remember the node before its own; session
/// and node have the same number.
#[derive(Clone, Copy, PartialEq, Eq, Debug)]
pub enum Stage {
    Link(u16),
    See(u16),
    Close,
    Inside,
    Try,
    Open,
    Await,
    Hand,
}

// What the kind is lent: lock words, the sessions' claims, and a node for each session.
type Memory = LockMemory<Option<Claim<Stage>>>;

/// A bank of queuing locks: the sizes that layout gave it.
#[derive(Clone, Copy, PartialEq, Eq, Debug, Default)]
pub struct Queuing {
    sizes: Sizes,
}

impl Bank for Queuing {
    type Record = Option<Claim<Stage>>;

    ghost extent = { λ k. k.sizes };

    ghost nodes_for = { nodes_for };

    ghost modulus = { words.versions };

    ghost askers = { asking };

    ghost leaving = { meaning.leaving };

    ghost inside = { meaning.inside };

    ghost age = { meaning.age };

    ghost calm = { meaning.calm };

    ghost mark = { meaning.mark };

    ghost calm_of = { words.calm_of };

    ghost age_of = { words.age_of };

    ghost fair = { true };

    ghost line = { meaning.line };

    ghost needed = { meaning.needed };

    ghost entry_pushes = { 3 };

    ghost exit_pushes = { 4 };

    ghost lays = { calls.lays };

    ghost asks = { calls.asks };

    ghost pushes = { calls.pushes };

    ghost leaves = { calls.leaves };

    ghost peeks = { calls.peeks };

    ghost counts = { calls.counts };

    ghost lawful = { queuing_lawful };

    fn node_count(sizes: Sizes) -> usize {
        sizes.sessions
    }

    fn sizes(&self) -> Sizes {
        self.sizes
    }

    fn layout(&mut self, memory: &mut Memory, sizes: Sizes, start: u64) -> Result<(), Fault> {
        let bank = Queuing { sizes };
        memory.admit_layout(bank.capacity(), start, VERSIONS)?;
        *self = bank;
        memory.reset(Word::Free(start).pack());
        Ok(())
    }

    fn ask(&mut self, memory: &mut Memory, session: usize, bin: usize) -> Result<AskAnswer, Fault> {
        let own = memory.own_record(self.capacity(), session, bin)?;
        Actor::new(*self, memory, session, bin).ask(own)
    }

    fn push(
        &mut self,
        memory: &mut Memory,
        session: usize,
        bin: usize,
    ) -> Result<PushAnswer, Fault> {
        let stage = memory.own_stage(self.capacity(), session, bin)?;
        Actor::new(*self, memory, session, bin).push(stage)
    }

    fn leave(
        &mut self,
        memory: &mut Memory,
        session: usize,
        bin: usize,
    ) -> Result<LeaveAnswer, Fault> {
        let Stage::Inside = memory.own_stage(self.capacity(), session, bin)? else {
            return Err(Fault::out_of_turn(session));
        };
        Actor::new(*self, memory, session, bin).look()
    }

    fn peek(&self, memory: &Memory, bin: usize) -> Result<(u64, bool), Fault> {
        memory.admit_bin(self.capacity(), bin)?;
        let word = memory.words[bin];
        let said = self.lawful_word(word, bin)?;
        Ok((word, said.is_calm()))
    }

    fn ahead(&self, memory: &Memory, session: usize) -> Result<Option<usize>, Fault> {
        if memory.record_of(self.capacity(), session)?.is_none() {
            return Ok(None);
        }
        self.count_ahead(memory, session)
    }
}
