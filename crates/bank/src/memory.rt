//! The memory of a bank of locks: the caller owns it and lends it at each call.
ghost use Rattle.std.specs.Prelude.{◌≡◌, if◌then◌else◌, nat_lt, IfOk, Ok, Err};
ghost use Rattle.bank.specs.Memory.{within_limits, has_lengths, admits, admits_layout, admits_session, admits_bin, checked_record, read_record, own_record, own_stage, lent, blank, fresh};
ghost use Rattle.bank.specs.Refusals.{bad_size, no_session, no_bin};

use super::refusals::Fault;
use std::alloc::{AllocError, Global};

const MAX_SESSIONS: usize = 1024;

const MAX_BINS: usize = 4096;

/// How many sessions and bins a bank was laid out for; none before its layout.
#[derive(Clone, Copy, PartialEq, Eq, Debug, Default)]
pub struct Sizes {
    pub sessions: usize,
    pub bins: usize,
}

impl Sizes {
    pub fn within_limits(self) -> bool
        ensures { result ≡ within_limits self }
    {
        (1..=MAX_SESSIONS).contains(&self.sessions) && (1..=MAX_BINS).contains(&self.bins)
    }

    // Refusal 2.
    fn check_session(self, session: usize) -> Result<(), Fault>
        ensures { result ≡ (if nat_lt session self.sessions then Ok tt else Err (no_session session)) }
    {
        if session >= self.sessions {
            return Err(Fault::no_session(session));
        }
        Ok(())
    }

    // Refusal 3.
    fn check_bin(self, bin: usize) -> Result<(), Fault>
        ensures { result ≡ (if nat_lt bin self.bins then Ok tt else Err (no_bin bin)) }
    {
        if bin >= self.bins {
            return Err(Fault::no_bin(bin));
        }
        Ok(())
    }
}

/// A session's node in a lock kind that links its line: who comes next, and the version handed over.
#[derive(Clone, Copy, PartialEq, Eq, Debug, Default)]
pub struct Node {
    pub next: Option<u16>,
    pub version: Option<u64>,
}

/// What a bank serves: its sessions and bins, and the nodes that its kind wants for them.
#[derive(Clone, Copy, PartialEq, Eq, Debug)]
pub struct Capacity {
    pub sizes: Sizes,
    pub nodes: usize,
}

/// The lengths that a bank's memory must have.
#[derive(Clone, Copy, PartialEq, Eq, Debug)]
pub struct Lengths {
    pub words: usize,
    pub records: usize,
    pub nodes: usize,
}

/// What a kind notes of an asker: the bin at which it asks, and how far it is there.
#[derive(Clone, Copy, PartialEq, Eq, Debug)]
pub struct Claim<T> {
    pub bin: usize,
    pub stage: T,
}

/// A lock word for each bin, the kind's own record of each session, and the kind's nodes.
#[derive(Drop)]
pub struct LockMemory<R> {
    pub words: Vec<u64>,
    pub records: Vec<R>,
    pub nodes: Vec<Node>,
}

impl<R: Copy> LockMemory<R> {
    /// New memory of the given lengths. Nothing else allocates.
    pub fn allocate(alloc: Global, lengths: Lengths, record: R) -> Result<Self, AllocError>
        ensures { IfOk result (λ m. lent m ≡ blank lengths «record») }
    {
        let words = vec![in alloc; 0; lengths.words]?;
        let mut records = Vec::new(alloc);
        records.resize(lengths.records, record)?;
        let nodes = vec![in alloc; Node::default(); lengths.nodes]?;
        Ok(LockMemory {
            words,
            records,
            nodes,
        })
    }
}

impl<R> LockMemory<R> {
    /// The sizes are within their limits, and the memory has the lengths told for them.
    pub fn fits(&self, capacity: Capacity) -> bool
        ensures { result ≡ has_lengths capacity.nodes capacity.sizes (lent self.now) }
    {
        let sizes = capacity.sizes;
        sizes.within_limits()
            && self.words.len() == sizes.bins
            && self.records.len() == sizes.sessions
            && self.nodes.len() == capacity.nodes
    }

    // Refusal 1.
    fn check_lengths(&self, capacity: Capacity) -> Result<(), Fault>
        ensures { result ≡ (if has_lengths capacity.nodes capacity.sizes (lent self.now) then Ok tt else Err bad_size) }
    {
        if !self.fits(capacity) {
            return Err(Fault::bad_size());
        }
        Ok(())
    }

    /// Refusal 1 of a layout, for ages below so many.
    pub fn admit_layout(&self, capacity: Capacity, start: u64, ages: u64) -> Result<(), Fault>
        ensures { result ≡ admits_layout capacity.nodes capacity.sizes (lent self.now) start ages }
    {
        self.check_lengths(capacity)?;
        if start >= ages {
            return Err(Fault::bad_size());
        }
        Ok(())
    }

    /// Refusals 1 and 2 of a call that names a session.
    pub fn admit_session(&self, capacity: Capacity, session: usize) -> Result<(), Fault>
        ensures { result ≡ admits_session capacity.nodes capacity.sizes (lent self.now) session }
    {
        self.check_lengths(capacity)?;
        capacity.sizes.check_session(session)
    }

    /// Refusals 1 and 3 of a call that names a bin.
    pub fn admit_bin(&self, capacity: Capacity, bin: usize) -> Result<(), Fault>
        ensures { result ≡ admits_bin capacity.nodes capacity.sizes (lent self.now) bin }
    {
        self.check_lengths(capacity)?;
        capacity.sizes.check_bin(bin)
    }

    /// Refusals 1, 2 and 3 of a call that names a session and a bin.
    pub fn admit(&self, capacity: Capacity, session: usize, bin: usize) -> Result<(), Fault>
        ensures { result ≡ admits capacity.nodes capacity.sizes (lent self.now) session bin }
    {
        self.check_lengths(capacity)?;
        capacity.sizes.check_session(session)?;
        capacity.sizes.check_bin(bin)
    }
}

impl<T: Copy> LockMemory<Option<Claim<T>>> {
    /// Every word is this one, nobody has a claim, and every node is empty.
    pub fn reset(&mut self, word: u64)
        ensures { lent self.new ≡ fresh word (lent self.old) }
    {
        self.words.fill(word);
        self.records.fill(None);
        self.nodes.fill(Node::default());
    }

    /// A session's record, past the refusals 1 and 2; refused by 9 if it names a bin that is not there.
    pub fn record_of(&self, capacity: Capacity, session: usize) -> Result<Option<Claim<T>>, Fault>
        ensures { result ≡ read_record capacity.nodes capacity.sizes (lent self.now) session }
    {
        self.admit_session(capacity, session)?;
        in_range(capacity.sizes.bins, session, self.records[session])
    }

    /// The caller's own record, past the refusals 1, 2 and 3; refused by 9 if it names a bin that is not there.
    pub fn own_record(
        &self,
        capacity: Capacity,
        session: usize,
        bin: usize,
    ) -> Result<Option<Claim<T>>, Fault>
        ensures { result ≡ own_record capacity.nodes capacity.sizes (lent self.now) session bin }
    {
        self.admit(capacity, session, bin)?;
        in_range(capacity.sizes.bins, session, self.records[session])
    }

    /// How far the caller is at the bin; refused by 10 if it does not ask there.
    pub fn own_stage(&self, capacity: Capacity, session: usize, bin: usize) -> Result<T, Fault>
        ensures { result ≡ own_stage capacity.nodes capacity.sizes (lent self.now) session bin }
    {
        match self.own_record(capacity, session, bin)? {
            Some(claim) if claim.bin == bin => Ok(claim.stage),
            _ => Err(Fault::out_of_turn(session)),
        }
    }
}

// A session's record as it was read, or 9 at the session.
fn in_range<T: Copy>(
    bins: usize,
    session: usize,
    record: Option<Claim<T>>,
) -> Result<Option<Claim<T>>, Fault>
    ensures { result ≡ checked_record (Ok tt) bins session «record» }
{
    if record.is_some_and(|claim| claim.bin >= bins) {
        return Err(Fault::bad_record(session));
    }
    Ok(record)
}
