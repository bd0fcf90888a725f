//! From a line to a command. A line that is no command gives none.
ghost use Rattle.std.specs.Prelude.{◌≡◌, ◌∷◌, ℕ, List, Some, codes};
ghost use Rattle.commands.specs.Syntax.{texts, kind_text, call_text, One, Laid, Four, Works, Behind, Reads, ReadAs};
ghost use Rattle.commands.specs.Numbers.{digit_of, with_digit, read_digits, lock_word, number, word32, amount};

use super::syntax::{BinWords, Command, Job, KindName, Setup};
use bank::{Call, Sizes};

// What a byte counts as a digit: 0 to 9, and the capitals A to F.
fn digit_of(byte: u8) -> Option<u8>
    ensures { result ≡ digit_of byte }
{
    match byte {
        b'0'..=b'9' => Some(byte - b'0'),
        b'A'..=b'F' => Some(byte - b'A' + 10),
        _ => None,
    }
}

// The value with one digit more behind it.
fn with_digit(radix: u64, value: u64, byte: u8) -> Option<u64>
    ensures { result ≡ with_digit radix (Some value) (digit_of byte) }
{
    let digit = u64::from(digit_of(byte)?);
    if digit >= radix {
        return None;
    }
    value.checked_mul(radix)?.checked_add(digit)
}

// The value of a text of digits, below 2^64. (The library's `from_str_radix` also takes a leading
// plus and small letters.)
fn read_digits(radix: u64, text: &[u8]) -> Option<u64>
    ensures { result ≡ read_digits radix text.now }
{
    let mut value = 0;
    for &byte in text {
        value = with_digit(radix, value, byte)?;
    }
    Some(value)
}

// A number in decimal digits, without sign and without leading zeros, below 2^64.
#[tactic(auto, unfolding(crate::specs::Numbers::number))]
fn number(text: &[u8]) -> Option<u64>
    ensures { result ≡ number text.now }
{
    match text {
        [] | [b'0', _, ..] => None,
        _ => read_digits(10, text),
    }
}

// A value that one word spells.
trait FromWord: Sized {
    ghost spelled: { Self → List ℕ → Type 0 };

    fn from_word(text: &str) -> Option<Self>
        ensures { Reads spelled text.now result };
}

// An age.
impl FromWord for u64 {
    ghost spelled = { λ n text. number text ≡ Some n };

    fn from_word(text: &str) -> Option<u64> {
        number(text.as_bytes())
    }
}

// A session's or a bin's number, or a size.
impl FromWord for usize {
    ghost spelled = { λ n text. number text ≡ Some n };

    fn from_word(text: &str) -> Option<usize> {
        usize::try_from(number(text.as_bytes())?).ok()
    }
}

// A number below 2^32.
impl FromWord for u32 {
    ghost spelled = { λ n text. word32 text ≡ Some n };

    #[tactic(auto, unfolding(crate::specs::Numbers::word32))]
    fn from_word(text: &str) -> Option<u32> {
        u32::try_from(number(text.as_bytes())?).ok()
    }
}

// A signed 32-bit number, a minus sign directly before its digits; zero has no sign.
impl FromWord for i32 {
    ghost spelled = { λ z text. amount text ≡ Some z };

    #[tactic(auto, unfolding(crate::specs::Numbers::amount))]
    fn from_word(text: &str) -> Option<i32> {
        match text.as_bytes() {
            [b'-', digits @ ..] => match number(digits)? {
                0 => None,
                size => i32::try_from(-i128::from(size)).ok(),
            },
            digits => i32::try_from(number(digits)?).ok(),
        }
    }
}

impl FromWord for KindName {
    ghost spelled = { λ kind text. text ≡ kind_text kind };

    fn from_word(text: &str) -> Option<KindName> {
        match text {
            "queuing" => Some(KindName::Queuing),
            "ticket" => Some(KindName::Ticket),
            "central" => Some(KindName::Central),
            _ => None,
        }
    }
}

// A lock word: 16 hexadecimal digits, capitals.
#[tactic(auto, unfolding(crate::specs::Numbers::lock_word))]
fn lock_word(text: &str) -> Option<u64>
    ensures { result ≡ lock_word text.now }
{
    if text.len() != 16 {
        return None;
    }
    read_digits(16, text.as_bytes())
}

// SESSION or BIN, and no more.
#[tactic(auto, unfolding(crate::specs::Syntax::One))]
fn one(words: &[&str]) -> Option<usize>
    ensures { Reads One (texts words.now) result }
{
    match words {
        [number] => usize::from_word(number),
        _ => None,
    }
}

// KIND SESSIONS BINS AGE, and no more. Of several words the last is read first, which keeps the proofs short.
#[tactic(auto, unfolding(crate::specs::Syntax::Laid))]
fn setup(words: &[&str]) -> Option<Setup>
    ensures { Reads Laid (texts words.now) result }
{
    match words {
        [kind, sessions, bins, age] => Some(Setup {
            start: u64::from_word(age)?,
            sizes: Sizes {
                bins: usize::from_word(bins)?,
                sessions: usize::from_word(sessions)?,
            },
            kind: KindName::from_word(kind)?,
        }),
        _ => None,
    }
}

// ARTICLE QUANTITY RESERVED STAMP, and no more.
#[tactic(auto, unfolding(crate::specs::Syntax::Four))]
fn bin_words(words: &[&str]) -> Option<BinWords>
    ensures { Reads Four (texts words.now) result }
{
    match words {
        [article, quantity, reserved, stamp] => Some(BinWords {
            stamp: u32::from_word(stamp)?,
            reserved: u32::from_word(reserved)?,
            quantity: u32::from_word(quantity)?,
            article: u32::from_word(article)?,
        }),
        _ => None,
    }
}

// A job: its name, BIN, and what the job takes.
#[tactic(auto, unfolding(crate::specs::Syntax::Works, crate::specs::Syntax::One))]
fn job(words: &[&str]) -> Option<(usize, Job)>
    ensures { Reads Works (texts words.now) result }
{
    match words {
        ["lookup", bin] => Some((usize::from_word(bin)?, Job::Lookup)),
        ["set", bin, rest @ ..] => Some((usize::from_word(bin)?, Job::Set(bin_words(rest)?))),
        ["adjust", rest @ ..] => adjust(rest),
        _ => None,
    }
}

// BIN AMOUNT STAMP, and no more: what stands behind `adjust`.
#[tactic(auto, unfolding(crate::specs::Syntax::Works))]
fn adjust(words: &[&str]) -> Option<(usize, Job)>
    ensures { Reads Works (codes "adjust" ∷ texts words.now) result }
{
    match words {
        [bin, sum, stamp] => {
            let stamp = u32::from_word(stamp)?;
            let sum = i32::from_word(sum)?;
            Some((usize::from_word(bin)?, Job::Adjust(sum, stamp)))
        }
        _ => None,
    }
}

// SESSION and its job: what stands behind `begin`.
fn begin(words: &[&str]) -> Option<Command>
    ensures { Reads (Behind (codes "begin")) (texts words.now) result }
{
    match words {
        [session, rest @ ..] => {
            let session = usize::from_word(session)?;
            let (bin, job) = job(rest)?;
            Some(Command::Begin(session, bin, job))
        }
        _ => None,
    }
}

// What is poked, a lock word or a bin: what stands behind `poke`.
fn poke(words: &[&str]) -> Option<Command>
    ensures { Reads (Behind (codes "poke")) (texts words.now) result }
{
    match words {
        ["word", bin, word] => Some(Command::PokeWord(usize::from_word(bin)?, lock_word(word)?)),
        ["bin", bin, rest @ ..] => Some(Command::PokeBin(usize::from_word(bin)?, bin_words(rest)?)),
        _ => None,
    }
}

// SESSION BIN, and no more: what stands behind the name of a call.
fn call(call: Call, words: &[&str]) -> Option<Command>
    ensures { Reads (Behind (call_text call)) (texts words.now) result }
{
    match words {
        [session, bin] => Some(Command::Call(
            call,
            usize::from_word(session)?,
            usize::from_word(bin)?,
        )),
        _ => None,
    }
}

// BIN and its four words: what stands behind `load`.
fn load(words: &[&str]) -> Option<Command>
    ensures { Reads (Behind (codes "load")) (texts words.now) result }
{
    match words {
        [bin, rest @ ..] => Some(Command::Load(usize::from_word(bin)?, bin_words(rest)?)),
        _ => None,
    }
}

// The command that a verb and the words behind it spell.
fn command(verb: &str, rest: &[&str]) -> Option<Command>
    ensures { Reads (Behind verb.now) (texts rest.now) result }
{
    match verb {
        "layout" => setup(rest).map(Command::Layout),
        "bank" => setup(rest).map(Command::Bank),
        "load" => load(rest),
        "open" => rest.is_empty().then_some(Command::Open),
        "begin" => begin(rest),
        "step" => one(rest).map(Command::Step),
        "collect" => one(rest).map(Command::Collect),
        "ahead" => one(rest).map(Command::Ahead),
        "peek" => one(rest).map(Command::Peek),
        "close" => rest.is_empty().then_some(Command::Close),
        "read" => one(rest).map(Command::Read),
        "ask" => call(Call::Ask, rest),
        "push" => call(Call::Push, rest),
        "leave" => call(Call::Leave, rest),
        "word" => one(rest).map(Command::Word),
        "node" => one(rest).map(Command::Node),
        "poke" => poke(rest),
        _ => None,
    }
}

/// The command that a line's words spell, if they spell one.
pub fn parse(words: &[&str]) -> Option<Command>
    ensures { ReadAs (texts words.now) result }
{
    match words {
        [verb, rest @ ..] => command(verb, rest),
        _ => None,
    }
}
