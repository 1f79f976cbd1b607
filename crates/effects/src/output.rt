// The output of a run, in lent bytes.
ghost use Rattle.std.specs.Prelude.{◌≡◌, ◌≤◌, min, length};
ghost use Rattle.std.specs.Fmt.{signed_decimal};
ghost use Rattle.text.specs.Memory.{memory_of, bytes_of};

use crate::copying::copy_string;
use itoa::Buffer;
use machine::ending::Ending;
use text::span::{Bytes, Span};

// The bytes lent, and how many of them are printed.
#[derive(Drop)]
pub struct Output<'o> {
    pub(crate) bytes: &'o mut [u8],
    pub(crate) printed: usize,
    ghost within: { printed ≤ length bytes.now },
}

impl<'o> Output<'o> {
    ghost use Rattle.effects.specs.Spending.{SameSlice, Prints, Room};

    pub fn new(bytes: &'o mut [u8]) -> Output<'o>
        ensures none { result.printed ≡ 0 }
        ensures lent { result.bytes ≡ bytes.entry }
    {
        Output { bytes, printed: 0 }
    }

    // Output that stands in lent bytes: the first `printed`, or all if there are fewer.
    pub fn resume(bytes: &'o mut [u8], printed: usize) -> Output<'o>
        ensures printed { result.printed ≡ min printed (length bytes.old) }
        ensures lent { result.bytes ≡ bytes.entry }
    {
        let printed = printed.min(bytes.len());
        Output { bytes, printed }
    }

    pub fn clear(&mut self)
        ensures none { self.new.printed ≡ 0 }
        ensures lent { self.new.bytes ≡ self.old.bytes }
    {
        self.printed = 0;
    }

    // Where n more bytes end, or no space for them.
    fn end(&self, n: usize) -> Result<usize, Ending>
        ensures room { Room n self.now result }
    {
        if n > self.bytes.len() - self.printed {
            Err(Ending::NoOutputSpace)
        } else {
            Ok(self.printed + n)
        }
    }

    // Prints what fits; what does not leaves everything as it was.
    pub fn print_integer(&mut self, n: i32) -> Result<(), Ending>
        ensures printed { Prints (signed_decimal n) self.old result self.new }
        ensures lent { SameSlice self.old.bytes self.new.bytes }
    {
        let mut buffer = Buffer::new();
        let digits = buffer.format(n).as_bytes();
        let end = self.end(digits.len())?;
        self.bytes[self.printed..end].copy_from_slice(digits);
        self.printed = end;
        Ok(())
    }

    pub fn print_string(&mut self, string: Span, bytes: Bytes<'_, '_, '_>) -> Result<(), Ending>
        ensures printed { Prints (bytes_of (memory_of bytes.entry) string) self.old result self.new }
        ensures lent { SameSlice self.old.bytes self.new.bytes }
    {
        let end = self.end(usize::from(string.len))?;
        copy_string(string, bytes, &mut self.bytes[self.printed..end]);
        self.printed = end;
        Ok(())
    }
}
