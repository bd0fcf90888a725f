//! The lock word: the high half is the next ticket, the low half the one served.
ghost use Rattle.std.specs.Prelude.{◌≡◌, ◌==◌};
ghost use Rattle.ticket.specs.Word.{halves, packed, lawful_halves, past};

use bank::{Fault, Sizes};

/// How many tickets there are before they go round.
pub(crate) const TICKETS: u64 = 1 << 32;

#[derive(Clone, Copy, PartialEq, Eq, Debug)]
pub(crate) struct Word {
    pub(crate) next: u32,
    pub(crate) served: u32,
}

impl From<u64> for Word {
    ghost from_gives = { λ w h. h ≡ halves w };

    fn from(word: u64) -> Word {
        Word {
            next: (word / TICKETS) as u32,
            served: (word % TICKETS) as u32,
        }
    }
}

impl From<Word> for u64 {
    ghost from_gives = { λ h w. w ≡ packed h };

    fn from(word: Word) -> u64 {
        u64::from(word.next) * TICKETS + u64::from(word.served)
    }
}

impl Word {
    /// Nobody holds a ticket.
    pub(crate) fn fresh(age: u32) -> Word
        ensures { result ≡ record { next = age; served = age } }
    {
        Word {
            next: age,
            served: age,
        }
    }

    /// What a bin's word says; refused by 9 if more tickets are outstanding than there are sessions.
    pub(crate) fn lawful(word: u64, sizes: Sizes, bin: usize) -> Result<Word, Fault>
        ensures { result ≡ lawful_halves sizes.sessions bin word }
    {
        let halves = Word::from(word);
        if halves.served_before(halves.next) > sizes.sessions {
            return Err(Fault::bad_word(bin));
        }
        Ok(halves)
    }

    /// Nobody has a ticket that is not yet done.
    pub(crate) fn is_calm(self) -> bool
        ensures { result ≡ (self.next == self.served) }
    {
        self.next == self.served
    }

    /// How many tickets are served before this one, going round.
    pub(crate) fn served_before(self, ticket: u32) -> usize
        ensures { result ≡ past ticket self.served }
    {
        ticket.wrapping_sub(self.served) as usize
    }
}
