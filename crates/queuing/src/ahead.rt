//! Those ahead of a session: from node to remembered node, back to the one that has a version.
ghost use Rattle.std.specs.Prelude.{◌≡◌, ℕ, ◌<◌, Some, Ok};
ghost use Rattle.bank.specs.Locks.{locks};
ghost use Rattle.queuing.specs.Calls as calls;
ghost use Rattle.queuing.specs.State.{HasSession, remembered_by};

use super::actions::below;
use super::word::VERSIONS;
use super::{Memory, Queuing, Stage};
use bank::{Claim, Fault};

// The node before its own that a session remembers.
fn remembered(own: Option<Claim<Stage>>) -> Option<u16>
    ensures { result ≡ remembered_by own }
{
    match own?.stage {
        Stage::Link(before) | Stage::See(before) => Some(before),
        _ => None,
    }
}

impl Queuing {
    // The session right before this one in its line; none for the first, which has a version.
    fn before(&self, memory: &Memory, session: usize) -> Result<Option<usize>, Fault>
        requires { HasSession (locks self.now memory.now) session }
        ensures value { result ≡ calls.behind (locks self.now memory.now) session }
        ensures there { (p : ℕ) → result ≡ Ok (Some p) → p < self.now.sizes.sessions }
    {
        if let Some(version) = memory.nodes[session].version {
            below(VERSIONS, session, version)?;
            return Ok(None);
        }
        let before = remembered(memory.records[session]).ok_or(Fault::bad_record(session))?;
        Ok(Some(below(self.sizes.sessions, session, before.into())?))
    }

    /// How many stand before a session in its line; refused by 9 where they are as many as there are sessions.
    #[tactic(auto, using(crate::proofs::Turns::turn))]
    pub(crate) fn count_ahead(
        &self,
        memory: &Memory,
        session: usize,
    ) -> Result<Option<usize>, Fault>
        requires { HasSession (locks self.now memory.now) session }
        ensures { result ≡ calls.counted self.now.sizes.sessions (locks self.now memory.now) session session 0 }
    {
        let mut at = session;
        for count in 0..self.sizes.sessions {
            let Some(before) = self.before(memory, at)? else {
                return Ok(Some(count));
            };
            at = before;
        }
        Err(Fault::bad_record(session))
    }
}
