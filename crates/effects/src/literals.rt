// The bytes that strings of the code refer to: the fixed names, and the texts that the caller lends.
ghost use Rattle.std.specs.Prelude.{◌≡◌};
ghost use Rattle.text.specs.Memory.{memory_of};
ghost use Rattle.effects.specs.Spending.{memory_with};

use crate::strings::Strings;
use text::span::Bytes;

#[derive(Clone, Copy, Debug)]
pub struct Literals<'f, 't> {
    pub fixed: &'f [u8],
    pub texts: &'t [u8],
}

impl<'f, 't> Literals<'f, 't> {
    // With the strings made, all bytes that a string can lie in.
    pub fn with<'m>(self, strings: &'m Strings<'_>) -> Bytes<'f, 't, 'm>
        ensures memory { memory_of result ≡ memory_with self.entry strings.now.bytes.now }
    {
        Bytes {
            fixed: self.fixed,
            texts: self.texts,
            made: strings.bytes,
        }
    }
}
