//! The lock word: bit 63 says locked, bit 62 says window, bits 61 to 52 are a node number, bits 51 to 0 are a version.
ghost use Rattle.std.specs.Prelude.{◌≡◌, ℕ, ◌^◌, ◌<◌, Some};
ghost use Rattle.queuing.specs.Word.{packed, unpacked, Within, closed, opened, calm_word, held_by};

/// How many versions there are before they go round. In a word it is the lowest bit of the node number.
pub const VERSIONS: u64 = 1 << 52;

// How many nodes a word can name.
const NODES: u64 = 1024;

const WINDOW: u64 = 1 << 62;

const LOCKED: u64 = 1 << 63;

/// What a lawful word says: nobody is in line; the last in line; the last in line while a turn is handed over, when
/// readers are admitted.
#[derive(Clone, Copy, PartialEq, Eq, Debug)]
pub enum Word {
    Free(u64),
    Held(u16),
    Window(u16, u64),
}

impl Word {
    /// The word that says this. A number too large for its bits is cut to them.
    pub fn pack(self) -> u64
        ensures value { result ≡ packed self }
        ensures undone { (sessions : ℕ) → Within sessions self → unpacked result sessions ≡ Some self }
    {
        match self {
            Word::Free(version) => version % VERSIONS,
            Word::Held(node) => LOCKED + u64::from(node) % NODES * VERSIONS,
            Word::Window(node, version) => {
                LOCKED + WINDOW + u64::from(node) % NODES * VERSIONS + version % VERSIONS
            }
        }
    }

    /// What a word says; none unless it is lawful for so many sessions.
    pub fn unpack(word: u64, sessions: usize) -> Option<Word>
        ensures value { result ≡ unpacked word sessions }
        ensures sound { (said : Word) → result ≡ Some said → Within sessions said × (packed said ≡ word) }
        ensures complete { (said : Word) → Within sessions said → packed said ≡ word → result ≡ Some said }
    {
        let node = word / VERSIONS % NODES;
        let version = word % VERSIONS;
        if word < VERSIONS {
            Some(Word::Free(version))
        } else if node as usize >= sessions {
            None
        } else if word / WINDOW == 3 {
            Some(Word::Window(node as u16, version))
        } else if word / WINDOW == 2 && version == 0 {
            Some(Word::Held(node as u16))
        } else {
            None
        }
    }

    /// Whether readers are admitted.
    pub(crate) fn is_calm(self) -> bool
        ensures { result ≡ calm_word self }
    {
        !matches!(self, Word::Held(_))
    }

    pub(crate) fn is_held_by(self, session: usize) -> bool
        ensures { result ≡ held_by self session }
    {
        matches!(self, Word::Held(node) if usize::from(node) == session)
    }
}

/// The word without its window and its version.
pub(crate) fn closed(word: u64) -> u64
    ensures { result ≡ closed word }
{
    word / LOCKED * LOCKED + word / VERSIONS % NODES * VERSIONS
}

/// The word with a window and this version, at the node that it names.
pub(crate) fn opened(word: u64, version: u64) -> u64
    requires { version < 2 ^ 52 }
    ensures { result ≡ opened word version }
{
    word / LOCKED * LOCKED + WINDOW + word / VERSIONS % NODES * VERSIONS + version
}
