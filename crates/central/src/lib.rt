//! The central kind: a session looks until the word is unlocked, and then swaps it for a locked one.
#![tactic(auto)]

ghost use Rattle.std.specs.Prelude.{false};
ghost use Rattle.bank.specs.Claims.{askers as asking};
ghost use Rattle.central.specs.Word.{unlocked, lock_bit, age_of};
ghost use Rattle.central.specs.State.{nodes_for};
ghost use Rattle.central.specs.Meaning as meaning;
ghost use Rattle.central.specs.Calls as calls;
ghost use Rattle.central.specs.Lawful.{central_lawful};

use bank::{AskAnswer, Bank, Claim, Fault, LeaveAnswer, LockMemory, PushAnswer, Sizes};

/// What a session does next at its bin: look at the word, swap the word it remembers, or work inside.
#[derive(Clone, Copy, PartialEq, Eq, Debug)]
pub enum Stage {
    Look,
    Swap(u64),
    Inside,
}

// What the kind is lent: lock words and the sessions' claims.
type Memory = LockMemory<Option<Claim<Stage>>>;

/// A bank of central locks: the sizes that layout gave it.
#[derive(Clone, Copy, PartialEq, Eq, Debug, Default)]
pub struct Central {
    sizes: Sizes,
}

// Bit 63 of a lock word, and how many versions there are.
const LOCK_BIT: u64 = 1 << 63;

// The kind links no line through nodes.
const NODES: usize = 0;

impl Bank for Central {
    type Record = Option<Claim<Stage>>;

    ghost extent = { λ k. k.sizes };

    ghost nodes_for = { nodes_for };

    ghost modulus = { lock_bit };

    ghost askers = { asking };

    ghost leaving = { meaning.leaving };

    ghost inside = { meaning.inside };

    ghost age = { meaning.age };

    ghost calm = { meaning.calm };

    ghost mark = { meaning.mark };

    ghost calm_of = { unlocked };

    ghost age_of = { age_of };

    ghost fair = { false };

    ghost line = { meaning.line };

    ghost needed = { meaning.needed };

    ghost entry_pushes = { 0 };

    ghost exit_pushes = { 0 };

    ghost lays = { calls.lays };

    ghost asks = { calls.asks };

    ghost pushes = { calls.pushes };

    ghost leaves = { calls.leaves };

    ghost peeks = { calls.peeks };

    ghost counts = { calls.counts };

    ghost lawful = { central_lawful };

    fn node_count(_sizes: Sizes) -> usize {
        NODES
    }

    fn sizes(&self) -> Sizes {
        self.sizes
    }

    fn layout(&mut self, memory: &mut Memory, sizes: Sizes, start: u64) -> Result<(), Fault> {
        let bank = Central { sizes };
        memory.admit_layout(bank.capacity(), start, LOCK_BIT)?;
        *self = bank;
        memory.reset(start);
        Ok(())
    }

    fn ask(&mut self, memory: &mut Memory, session: usize, bin: usize) -> Result<AskAnswer, Fault> {
        let None = memory.own_record(self.capacity(), session, bin)? else {
            return Err(Fault::out_of_turn(session));
        };
        let word = memory.words[bin];
        let stage = if word < LOCK_BIT {
            Stage::Swap(word)
        } else {
            Stage::Look
        };
        memory.records[session] = Some(Claim { bin, stage });
        Ok(AskAnswer::NotYet)
    }

    fn push(
        &mut self,
        memory: &mut Memory,
        session: usize,
        bin: usize,
    ) -> Result<PushAnswer, Fault> {
        let own = memory.own_stage(self.capacity(), session, bin)?;
        let word = memory.words[bin];
        let (stage, answer) = match own {
            Stage::Inside => return Err(Fault::out_of_turn(session)),
            Stage::Swap(seen) if seen >= LOCK_BIT => return Err(Fault::bad_record(session)),
            Stage::Look if word >= LOCK_BIT => return Ok(PushAnswer::Waits),
            Stage::Look => (Stage::Swap(word), PushAnswer::Moved),
            Stage::Swap(seen) if word != seen => (Stage::Look, PushAnswer::Moved),
            Stage::Swap(seen) => {
                memory.words[bin] = seen + LOCK_BIT;
                (Stage::Inside, PushAnswer::In)
            }
        };
        memory.records[session] = Some(Claim { bin, stage });
        Ok(answer)
    }

    fn leave(
        &mut self,
        memory: &mut Memory,
        session: usize,
        bin: usize,
    ) -> Result<LeaveAnswer, Fault> {
        let Stage::Inside = memory.own_stage(self.capacity(), session, bin)? else {
            return Err(Fault::out_of_turn(session));
        };
        memory.words[bin] = (memory.words[bin] % LOCK_BIT + 1) % LOCK_BIT;
        memory.records[session] = None;
        Ok(LeaveAnswer::Out)
    }

    fn peek(&self, memory: &Memory, bin: usize) -> Result<(u64, bool), Fault> {
        memory.admit_bin(self.capacity(), bin)?;
        let word = memory.words[bin];
        Ok((word, word < LOCK_BIT))
    }

    fn ahead(&self, memory: &Memory, session: usize) -> Result<Option<usize>, Fault> {
        memory.admit_session(self.capacity(), session)?;
        Ok(None)
    }
}
