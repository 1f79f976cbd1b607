// How a run ends.
ghost use Rattle.std.specs.Prelude.{◌≡◌, ◌<◌, ◌≤◌, ◌++◌, length, drop, MatchOption};
ghost use Rattle.machine.specs.declared.ending.Ending.TheVariants.{Stuck};
ghost use Rattle.machine.specs.Ending.{number_of, message_of, ended_by};
ghost use Rattle.machine.specs.Named.{Asked};

use store::{NoTable, Refusal};

// Each with its number, as the machine's table has it.
#[derive(Clone, Copy, Debug, PartialEq, Eq)]
pub enum Ending {
    Finished = 0,
    NoSuchMethod = 1,
    NoSuchClass = 2,
    CannotInstantiateBot = 3,
    UnboundLocal = 4,
    WrongArgumentCount = 5,
    WrongArgumentKind = 6,
    NoSuchKey = 7,
    DivisionByZero = 8,
    NoTableSpace = 9,
    NoTextSpace = 10,
    NoFrameSpace = 11,
    NoOutputSpace = 12,
    Dropped = 13,
    Stuck = 14,
    NotEnded = 15,
}

impl Ending {
    // A method, so that the code which prints it says what the number is.
    pub fn number(self) -> u8
        ensures its_number { result ≡ number_of self }
    {
        self as u8
    }

    // Only the endings 1 to 12 have a message.
    pub fn message(self) -> &'static [u8]
        ensures its_words { result.now ≡ message_of self }
    {
        match self {
            Ending::Finished | Ending::Dropped | Ending::Stuck | Ending::NotEnded => b"",
            Ending::NoSuchMethod => b"halt: No such method",
            Ending::NoSuchClass => b"halt: No such class",
            Ending::CannotInstantiateBot => b"halt: Cannot instantiate Bot",
            Ending::UnboundLocal => b"halt: Unbound local",
            Ending::WrongArgumentCount => b"halt: Wrong number of arguments",
            Ending::WrongArgumentKind => b"halt: Wrong kind of argument",
            Ending::NoSuchKey => b"halt: No such key",
            Ending::DivisionByZero => b"halt: Division by zero",
            Ending::NoTableSpace => b"halt: No space for tables",
            Ending::NoTextSpace => b"halt: No space for text",
            Ending::NoFrameSpace => b"halt: No space for frames",
            Ending::NoOutputSpace => b"halt: No space for output",
        }
    }

    // The message at the front of the buffer, and its length; a buffer that is too short stays as it is.
    pub fn write_message(self, out: &mut [u8]) -> Option<usize>
        ensures at_the_front { MatchOption result (out.new ≡ out.old) (λ n. (n ≡ length (message_of self)) × (out.new ≡ message_of self ++ drop (length (message_of self)) out.old)) }
        ensures refused_if_short { MatchOption result (length out.old < length (message_of self)) (λ n. length (message_of self) ≤ length out.old) }
    {
        let text = self.message();
        let n = text.len();
        // A test and a range: after a `get_mut` no proof knows the buffer's bytes.
        if out.len() < n {
            return None;
        }
        out[..n].copy_from_slice(text);
        Some(n)
    }
}

// No program can ask for an ending by this number.
#[derive(Clone, Copy, Debug, PartialEq, Eq)]
pub struct NotAsked;

// The endings that a program can ask for, by their numbers.
impl TryFrom<i32> for Ending {
    type Error = NotAsked;

    ghost try_from_gives = { Asked };

    fn try_from(number: i32) -> Result<Ending, NotAsked> {
        match number {
            1 => Ok(Ending::NoSuchMethod),
            2 => Ok(Ending::NoSuchClass),
            3 => Ok(Ending::CannotInstantiateBot),
            4 => Ok(Ending::UnboundLocal),
            5 => Ok(Ending::WrongArgumentCount),
            6 => Ok(Ending::WrongArgumentKind),
            7 => Ok(Ending::NoSuchKey),
            8 => Ok(Ending::DivisionByZero),
            _ => Err(NotAsked),
        }
    }
}

// How a run ends at a store's refusal.
impl From<NoTable> for Ending {
    ghost from_gives = { λ _ e. e ≡ Stuck };

    fn from(_refusal: NoTable) -> Ending {
        Ending::from(Refusal::NoTable)
    }
}

impl From<Refusal> for Ending {
    ghost from_gives = { λ refusal e. e ≡ ended_by refusal };

    fn from(refusal: Refusal) -> Ending {
        match refusal {
            Refusal::NoTable => Ending::Stuck,
            Refusal::Full => Ending::NoTableSpace,
        }
    }
}
