//! The nine actions of the queuing kind: docs/LOCKS.md. Each touches at most one lock word, the own record and node, and
//! one other node.
ghost use Rattle.std.specs.Prelude.{◌≡◌, ◌<◌, if◌then◌else◌, Ok, Err, vec_len};
ghost use Rattle.std.specs.Ordering.{is_lt};
ghost use Rattle.bank.specs.Refusals.{bad_record};
ghost use Rattle.bank.specs.Locks.{locks};
ghost use Rattle.queuing.specs.Actions as actions;
ghost use Rattle.queuing.specs.Calls as calls;
ghost use Rattle.queuing.specs.State.{HasSession, lawful, lawful_word, below, own_version, own_next, staged, released};
ghost use Rattle.queuing.specs.Word.{next_version, unpacked};

use super::word::{VERSIONS, Word, closed, opened};
use super::{Memory, Queuing, Stage};
use bank::{AskAnswer, Claim, Fault, LeaveAnswer, Node, PushAnswer};

// Versions go round from the last to 0.
fn next_version(version: u64) -> u64
    ensures { result ≡ next_version version }
{
    version.wrapping_add(1) % VERSIONS
}

/// A number below its bound; refused by 9 at the session whose record or node it is read from.
pub(crate) fn below<T: Ord + Copy>(bound: T, session: usize, number: T) -> Result<T, Fault>
    ensures { result ≡ (if is_lt (T.cmp number bound) then Ok number else Err (bad_record session)) }
{
    if number < bound {
        Ok(number)
    } else {
        Err(Fault::bad_record(session))
    }
}

impl Queuing {
    /// What a bin's lock word says; refused by 9 at the bin if the word is not lawful.
    pub(crate) fn lawful_word(&self, word: u64, bin: usize) -> Result<Word, Fault>
        ensures { result ≡ lawful (unpacked word self.now.sizes.sessions) bin }
    {
        Word::unpack(word, self.sizes.sessions).ok_or(Fault::bad_word(bin))
    }
}

/// A session that acts at a bin, on memory that has the word, the records and the nodes for it.
#[derive(Drop)]
pub(crate) struct Actor<'a> {
    bank: Queuing,
    memory: &'a mut Memory,
    session: usize,
    bin: usize,
    ghost fits_word: { session < 1024 },
    ghost has_session: { HasSession (locks bank memory.now) session },
    ghost has_word: { bin < vec_len memory.now.words },
}

impl<'a> Actor<'a> {
    ghost use Rattle.queuing.specs.Actor.{state_of, Writes, Does};

    /// Session and bin must be there in the memory.
    pub(crate) fn new(
        bank: Queuing,
        memory: &'a mut Memory,
        session: usize,
        bin: usize,
    ) -> Actor<'a>
        requires fits_word { session < 1024 }
        requires has_session { HasSession (locks bank memory.old) session }
        requires has_word { bin < vec_len memory.old.words }
        ensures state { state_of result ≡ locks bank memory.old }
        ensures same_memory { result.memory.ghost_name ≡ memory.entry.ghost_name }
        ensures session { result.session ≡ session }
        ensures bin { result.bin ≡ bin }
    {
        Actor {
            bank,
            memory,
            session,
            bin,
        }
    }

    // What the bin's lock word says; refused by 9 at the bin if the word is not lawful.
    fn lawful_word(&self) -> Result<Word, Fault>
        ensures { result ≡ lawful_word (state_of self.now) self.now.bin }
    {
        let word = self.memory.words[self.bin];
        self.bank.lawful_word(word, self.bin)
    }

    // The number of a node; refused by 9 if there is no such node.
    fn node(&self, number: u16) -> Result<usize, Fault>
        ensures { result ≡ below self.now.bank.sizes.sessions self.now.session number }
    {
        below(self.bank.sizes.sessions, self.session, number.into())
    }

    // The own version; refused by 9 if there is none.
    fn own_version(&self) -> Result<u64, Fault>
        ensures { result ≡ own_version (state_of self.now) self.now.session }
    {
        let own = self.memory.nodes[self.session];
        let version = own.version.ok_or(Fault::bad_record(self.session))?;
        below(VERSIONS, self.session, version)
    }

    // The own next; refused by 9 if there is none.
    fn own_next(&self) -> Result<usize, Fault>
        ensures { result ≡ own_next (state_of self.now) self.now.session }
    {
        let own = self.memory.nodes[self.session];
        let next = own.next.ok_or(Fault::bad_record(self.session))?;
        self.node(next)
    }

    // The session is at another stage of its bin.
    fn move_to(&mut self, stage: Stage)
        ensures { Writes (λ s i b. staged s i b stage) self.old self.new }
    {
        let bin = self.bin;
        self.memory.records[self.session] = Some(Claim { bin, stage });
    }

    // A session that is out has no record, and its node is empty.
    fn release(&mut self)
        ensures { Writes (λ s i _. released s i) self.old self.new }
    {
        self.memory.records[self.session] = None;
        self.memory.nodes[self.session] = Node::default();
    }

    /// The action that is next at a stage; refused by 10 inside.
    pub(crate) fn push(&mut self, stage: Stage) -> Result<PushAnswer, Fault>
        ensures { Does (calls.pushes_at stage) self.old self.new result }
    {
        match stage {
            Stage::Link(before) => self.link(before),
            Stage::See(_) => self.see(),
            Stage::Close => self.close(),
            Stage::Inside => Err(Fault::out_of_turn(self.session)),
            Stage::Try => self.try_free(),
            Stage::Open => self.open(),
            Stage::Await => self.await_next(),
            Stage::Hand => self.hand(),
        }
    }

    /// The exchange; refused by 10 for a session that has a claim, once the word is lawful.
    pub(crate) fn ask(&mut self, own: Option<Claim<Stage>>) -> Result<AskAnswer, Fault>
        ensures { Does (calls.asks_own (Ok own)) self.old self.new result }
    {
        let said = self.lawful_word()?;
        if own.is_some() {
            return Err(Fault::out_of_turn(self.session));
        }
        Ok(self.exchange(said))
    }

    // 1. The word becomes held with the own number.
    fn exchange(&mut self, said: Word) -> AskAnswer
        ensures { Does (actions.exchange said) self.old self.new (Ok result) }
    {
        self.memory.words[self.bin] = Word::Held(self.session as u16).pack();
        match said {
            Word::Free(version) => {
                self.memory.nodes[self.session].version = Some(next_version(version));
                self.move_to(Stage::Inside);
                AskAnswer::In
            }
            Word::Held(before) | Word::Window(before, _) => {
                self.move_to(Stage::Link(before));
                AskAnswer::NotYet
            }
        }
    }

    // 2. The remembered node's next becomes the own number.
    fn link(&mut self, before: u16) -> Result<PushAnswer, Fault>
        ensures { Does (actions.link before) self.old self.new result }
    {
        let node = self.node(before)?;
        self.memory.nodes[node].next = Some(self.session as u16);
        self.move_to(Stage::See(before));
        Ok(PushAnswer::Moved)
    }

    // 3. Without an own version the session waits.
    fn see(&mut self) -> Result<PushAnswer, Fault>
        ensures { Does actions.see self.old self.new result }
    {
        let own = self.memory.nodes[self.session];
        let Some(version) = own.version else {
            return Ok(PushAnswer::Waits);
        };
        below(VERSIONS, self.session, version)?;
        self.move_to(Stage::Close);
        Ok(PushAnswer::Moved)
    }

    // 4. The word's window bit and version become zero, and the session is in.
    fn close(&mut self) -> Result<PushAnswer, Fault>
        ensures { Does actions.close self.old self.new result }
    {
        self.lawful_word()?;
        let word = self.memory.words[self.bin];
        self.memory.words[self.bin] = closed(word);
        self.move_to(Stage::Inside);
        Ok(PushAnswer::In)
    }

    /// 5. Without an own next a try follows, otherwise an open.
    pub(crate) fn look(&mut self) -> Result<LeaveAnswer, Fault>
        ensures { Does actions.look self.old self.new result }
    {
        let own = self.memory.nodes[self.session];
        match own.next {
            None => self.move_to(Stage::Try),
            Some(next) => {
                self.node(next)?;
                self.move_to(Stage::Open);
            }
        }
        Ok(LeaveAnswer::Moved)
    }

    // 6. A word held with the own number becomes free with the own version, and the session is out.
    fn try_free(&mut self) -> Result<PushAnswer, Fault>
        ensures { Does actions.try self.old self.new result }
    {
        let said = self.lawful_word()?;
        if !said.is_held_by(self.session) {
            self.move_to(Stage::Open);
            return Ok(PushAnswer::Moved);
        }
        let version = self.own_version()?;
        self.memory.words[self.bin] = Word::Free(version).pack();
        self.release();
        Ok(PushAnswer::Out)
    }

    // 7. The word gains the window bit and the own version, and keeps its node number.
    fn open(&mut self) -> Result<PushAnswer, Fault>
        ensures { Does actions.open_window self.old self.new result }
    {
        self.lawful_word()?;
        let version = self.own_version()?;
        let word = self.memory.words[self.bin];
        self.memory.words[self.bin] = opened(word, version);
        self.move_to(Stage::Await);
        Ok(PushAnswer::Moved)
    }

    // 8. Without an own next the session waits.
    fn await_next(&mut self) -> Result<PushAnswer, Fault>
        ensures { Does actions.await self.old self.new result }
    {
        let own = self.memory.nodes[self.session];
        let Some(next) = own.next else {
            return Ok(PushAnswer::Waits);
        };
        self.node(next)?;
        self.move_to(Stage::Hand);
        Ok(PushAnswer::Moved)
    }

    // 9. The next node's version becomes the own one plus one, the own node is emptied, and the session is out.
    fn hand(&mut self) -> Result<PushAnswer, Fault>
        ensures { Does (λ s i _. actions.hand s i) self.old self.new result }
    {
        let next = self.own_next()?;
        let version = self.own_version()?;
        self.memory.nodes[next].version = Some(next_version(version));
        self.release();
        Ok(PushAnswer::Out)
    }
}
