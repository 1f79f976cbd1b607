// Bytes as text that shows each of them.
ghost use Rattle.std.specs.Prelude.{◌≡◌, Some, flat_map};
ghost use Rattle.display.specs.Bytes.{keeps, shown};

use std::fmt;

// Which bytes stand as they are; each of the others is `\x` and the two digits of its code.
#[derive(Clone, Copy, Debug, PartialEq, Eq)]
pub enum Rule {
    // those from space to tilde
    Visible,
    // those but for the backslash, so that there is one way back
    Reversible,
}

impl Rule {
    pub fn keeps(self, byte: u8) -> bool
        ensures from_space_to_tilde { result ≡ keeps self byte }
    {
        match self {
            Rule::Visible => matches!(byte, b' '..=b'~'),
            Rule::Reversible => matches!(byte, b' '..=b'~') && byte != b'\\',
        }
    }
}

// A byte as it is printed.
#[derive(Clone, Copy, Debug)]
pub struct Glyph {
    pub rule: Rule,
    pub byte: u8,
}

impl fmt::Display for Glyph {
    ghost output = { λ g. Some (shown g.rule g.byte) };

    fn fmt<W: fmt::Write>(&self, f: &mut fmt::Formatter<W>) -> fmt::Result {
        let byte = self.byte;
        if self.rule.keeps(byte) {
            let itself = char::from(byte);
            write!(f, "{itself}")
        } else {
            write!(f, "\\x{byte:02x}")
        }
    }
}

// Bytes as they are printed, one after another.
#[derive(Clone, Copy, Debug)]
pub struct Shown<'a> {
    pub rule: Rule,
    pub bytes: &'a [u8],
}

impl<'a> Shown<'a> {
    pub fn visible(bytes: &'a [u8]) -> Shown<'a>
        ensures by_that_rule { result.rule ≡ Rule.Visible }
        ensures its_bytes { result.bytes.now ≡ bytes.now }
    {
        Shown {
            rule: Rule::Visible,
            bytes,
        }
    }

    pub fn reversible(bytes: &'a [u8]) -> Shown<'a>
        ensures by_that_rule { result.rule ≡ Rule.Reversible }
        ensures its_bytes { result.bytes.now ≡ bytes.now }
    {
        Shown {
            rule: Rule::Reversible,
            bytes,
        }
    }
}

impl fmt::Display for Shown<'_> {
    ghost output = { λ s. Some (flat_map (shown s.rule) s.bytes.now) };

    fn fmt<W: fmt::Write>(&self, f: &mut fmt::Formatter<W>) -> fmt::Result {
        let rule = self.rule;
        for byte in self.bytes {
            let glyph = Glyph { rule, byte: *byte };
            write!(f, "{glyph}")?;
        }
        Ok(())
    }
}
