//! One interface before every lock kind: docs/LOCKS.md.
#![tactic(auto)]

ghost use Rattle.std.specs.Prelude.{◌≡◌, ℕ, Bool, List, Option, Result};
ghost use Rattle.bank.specs.declared.answers.AskAnswer.{AskAnswer};
ghost use Rattle.bank.specs.declared.answers.LeaveAnswer.{LeaveAnswer};
ghost use Rattle.bank.specs.declared.answers.PushAnswer.{PushAnswer};
ghost use Rattle.bank.specs.declared.memory.Sizes.{Sizes};
ghost use Rattle.bank.specs.declared.refusals.Fault.{Fault};
ghost use Rattle.bank.specs.Memory.{capacity_of};
ghost use Rattle.bank.specs.Outcome.{Outcome};
ghost use Rattle.bank.specs.Locks.{Locks, locks, fitting, with_bank};
ghost use Rattle.bank.specs.Kind.{kind};
ghost use Rattle.bank.specs.Laws.{Lawful};

mod answers;
mod calls;
mod laid;
mod memory;
mod refusals;
mod text;

pub use answers::{Answer, AskAnswer, Call, LeaveAnswer, PushAnswer};
pub use calls::{carry_out, lengths};
pub use laid::{LaidBank, LayoutError};
pub use memory::{Capacity, Claim, Lengths, LockMemory, Node, Sizes};
pub use refusals::{Fault, Layer, Place, Reason};

/// A bank of locks of one kind, one lock for each bin. It holds its sizes and is lent its memory at each call.
pub trait Bank: Sized {
    /// What the kind notes of a session.
    type Record;

    // The sizes that layout gave.
    ghost extent: { Self → Sizes };

    // How many nodes the kind wants for these sizes.
    ghost nodes_for: { Sizes → ℕ };

    // The bank without what it only notes down; the whole bank where it notes nothing.
    ghost effective: { Self → Self } = { λ k. k };

    // M: an age is below it.
    ghost modulus: { ℕ };

    // At a bin: who has asked and is not yet out, who of them has left, and who is inside.
    ghost askers: { Locks Self Self.Record → ℕ → ℕ → Bool };

    ghost leaving: { Locks Self Self.Record → ℕ → ℕ → Bool };

    ghost inside: { Locks Self Self.Record → ℕ → Option ℕ };

    // At a bin: the starting age plus the entries since layout, modulo M; whether readers are admitted; the number that
    // readers compare.
    ghost age: { Locks Self Self.Record → ℕ → ℕ };

    ghost calm: { Locks Self Self.Record → ℕ → Bool };

    ghost mark: { Locks Self Self.Record → ℕ → ℕ };

    // What a mark tells by itself: whether its bin is calm and, where it is, the age.
    ghost calm_of: { ℕ → Bool };

    ghost age_of: { ℕ → ℕ };

    // Whether the kind is fair. A fair kind has a line at each bin, its askers in the order of their asks.
    ghost fair: { Bool };

    ghost line: { Locks Self Self.Record → ℕ → List ℕ };

    // The pushes other than waits that a session may still need.
    ghost needed: { Locks Self Self.Record → ℕ → ℕ };

    // A: the pushes that a session may need at most after its ask.
    ghost entry_pushes: { ℕ };

    // R: the pushes that a session may need at most after its leave.
    ghost exit_pushes: { ℕ };

    // What each call answers and leaves, for good and bad arguments and any memory.
    ghost lays: { Locks Self Self.Record → Sizes → ℕ → Outcome (Unit {0}) (Locks Self Self.Record) };

    ghost asks: { Locks Self Self.Record → ℕ → ℕ → Outcome AskAnswer (Locks Self Self.Record) };

    ghost pushes: { Locks Self Self.Record → ℕ → ℕ → Outcome PushAnswer (Locks Self Self.Record) };

    ghost leaves: { Locks Self Self.Record → ℕ → ℕ → Outcome LeaveAnswer (Locks Self Self.Record) };

    ghost peeks: { Locks Self Self.Record → ℕ → Result (ℕ × Bool) Fault };

    ghost counts: { Locks Self Self.Record → ℕ → Result (Option ℕ) Fault };

    /// How many nodes the kind wants for these sizes.
    fn node_count(sizes: Sizes) -> usize
        ensures { result ≡ nodes_for sizes };

    /// The sizes that layout gave.
    fn sizes(&self) -> Sizes
        ensures { result ≡ extent self.now };

    /// What the bank serves by the sizes that layout gave.
    fn capacity(&self) -> Capacity
        ensures { result ≡ capacity_of nodes_for (extent self.now) }
    {
        let sizes = self.sizes();
        let nodes = Self::node_count(sizes);
        Capacity { sizes, nodes }
    }

    /// Sets every bin to the starting age, without askers.
    fn layout(
        &mut self,
        memory: &mut LockMemory<Self::Record>,
        sizes: Sizes,
        start: u64,
    ) -> Result<(), Fault>
        ensures answer { result ≡ (lays (locks self.old memory.old) sizes start).answer }
        ensures after { locks self.new memory.new ≡ (lays (locks self.old memory.old) sizes start).after };

    /// Makes a session an asker of a bin.
    fn ask(
        &mut self,
        memory: &mut LockMemory<Self::Record>,
        session: usize,
        bin: usize,
    ) -> Result<AskAnswer, Fault>
        ensures answer { result ≡ (asks (locks self.old memory.old) session bin).answer }
        ensures after { locks self.new memory.new ≡ (asks (locks self.old memory.old) session bin).after };

    /// Advances an asker that is not inside.
    fn push(
        &mut self,
        memory: &mut LockMemory<Self::Record>,
        session: usize,
        bin: usize,
    ) -> Result<PushAnswer, Fault>
        ensures answer { result ≡ (pushes (locks self.old memory.old) session bin).answer }
        ensures after { locks self.new memory.new ≡ (pushes (locks self.old memory.old) session bin).after };

    /// Takes the session inside a bin from there.
    fn leave(
        &mut self,
        memory: &mut LockMemory<Self::Record>,
        session: usize,
        bin: usize,
    ) -> Result<LeaveAnswer, Fault>
        ensures answer { result ≡ (leaves (locks self.old memory.old) session bin).answer }
        ensures after { locks self.new memory.new ≡ (leaves (locks self.old memory.old) session bin).after };

    /// The mark of a bin and whether it is calm.
    fn peek(&self, memory: &LockMemory<Self::Record>, bin: usize) -> Result<(u64, bool), Fault>
        ensures { result ≡ peeks (locks self.now memory.now) bin };

    /// How many stand before a session in its line; none for a session in no line.
    fn ahead(
        &self,
        memory: &LockMemory<Self::Record>,
        session: usize,
    ) -> Result<Option<usize>, Fault>
        ensures { result ≡ counts (locks self.now memory.now) session };

    ghost lawful: { Lawful (kind (λ s. extent s.bank) nodes_for (fitting nodes_for) (with_bank effective) modulus askers leaving inside age calm mark calm_of age_of fair line needed entry_pushes exit_pushes lays asks pushes leaves peeks counts) };
}
