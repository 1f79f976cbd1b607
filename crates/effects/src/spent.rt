// What a run has spent: strings made, and output printed.
ghost use Rattle.std.specs.Prelude.{◌≡◌, take};

use crate::output::Output;
use crate::strings::Strings;

// What was spent as numbers, which lend nothing: strings made, their bytes, and bytes printed.
#[derive(Clone, Copy, Debug, PartialEq, Eq)]
pub struct Numbers {
    pub strings: u16,
    pub bytes: u16,
    pub printed: usize,
}

#[derive(Drop)]
pub struct Spent<'m, 'o> {
    pub strings: Strings<'m>,
    pub output: Output<'o>,
}

impl<'m, 'o> Spent<'m, 'o> {
    // Nothing yet, over lent bytes for strings and for output.
    pub fn nothing(strings: &'m mut [u8], output: &'o mut [u8]) -> Spent<'m, 'o>
        ensures nothing { (result.strings.count ≡ 0) × (result.strings.used ≡ 0) × (result.output.printed ≡ 0) }
        ensures lent { (result.strings.bytes ≡ strings.entry) × (result.output.bytes ≡ output.entry) }
    {
        Spent {
            strings: Strings::new(strings),
            output: Output::new(output),
        }
    }

    // The bytes printed.
    pub fn printed(&self) -> &[u8]
        ensures bytes { result.now ≡ take self.now.output.printed self.now.output.bytes.now }
    {
        &self.output.bytes[..self.output.printed]
    }

    // How many strings were made, how many bytes they take, and how many were printed.
    pub fn numbers(&self) -> Numbers
        ensures strings { (result.strings ≡ self.now.strings.count) × (result.bytes ≡ self.now.strings.used) }
        ensures printed { result.printed ≡ self.now.output.printed }
    {
        Numbers {
            strings: self.strings.count,
            bytes: self.strings.used,
            printed: self.output.printed,
        }
    }
}
