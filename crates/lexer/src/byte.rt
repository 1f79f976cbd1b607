// What each byte can do in a text.
ghost use Rattle.std.specs.Prelude.{◌≡◌};
ghost use Rattle.lexer.specs.Byte.{kind_of, goes_on};

use crate::token::Symbol;

#[derive(Clone, Copy, Debug, PartialEq, Eq)]
pub enum ByteKind {
    Blank,
    // letters and + * / _ ! ?
    Identifying,
    // belongs to identifiers too, and begins an integer before a digit
    Minus,
    Digit,
    At,
    Quote,
    Sign(Symbol),
    Stray,
}

// What goes on byte by byte, as long as it can.
#[derive(Clone, Copy, Debug, PartialEq, Eq)]
pub enum Run {
    Blanks,
    Identifier,
    Digits,
    Quoted,
}

impl From<u8> for ByteKind {
    ghost from_gives = { λ b kind. kind ≡ kind_of b };

    fn from(b: u8) -> ByteKind {
        match b {
            b' ' | b'\t' | b'\r' | b'\n' => ByteKind::Blank,
            b'a'..=b'z' | b'A'..=b'Z' | b'+' | b'*' | b'/' | b'_' | b'!' | b'?' =>
                ByteKind::Identifying,
            b'-' => ByteKind::Minus,
            b'0'..=b'9' => ByteKind::Digit,
            b'@' => ByteKind::At,
            b'"' => ByteKind::Quote,
            b'.' => ByteKind::Sign(Symbol::Dot),
            b',' => ByteKind::Sign(Symbol::Comma),
            b';' => ByteKind::Sign(Symbol::Semicolon),
            b'(' => ByteKind::Sign(Symbol::OpenParen),
            b')' => ByteKind::Sign(Symbol::CloseParen),
            b'=' => ByteKind::Sign(Symbol::Equals),
            b'<' => ByteKind::Sign(Symbol::Less),
            _ => ByteKind::Stray,
        }
    }
}

impl Run {
    // Does the run go on with this byte?
    pub fn goes_on(self, b: u8) -> bool
        ensures the_run { result ≡ goes_on self b }
    {
        let kind = ByteKind::from(b);
        match self {
            // by the byte: it is asked before each token, which is then told by its kind
            Run::Blanks => matches!(b, b' ' | b'\t' | b'\r' | b'\n'),
            Run::Identifier => matches!(kind, ByteKind::Identifying | ByteKind::Minus),
            Run::Digits => matches!(kind, ByteKind::Digit),
            Run::Quoted => !matches!(kind, ByteKind::Quote),
        }
    }
}
