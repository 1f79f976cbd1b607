// The string space, in lent bytes: strings are only ever added behind those made before.
ghost use Rattle.std.specs.Prelude.{◌≡◌, ◌≤◌, min, ◌++◌, length};
ghost use Rattle.std.specs.Fmt.{signed_decimal};
ghost use Rattle.text.specs.Agree.{made_end};
ghost use Rattle.text.specs.Memory.{bytes_of};
ghost use Rattle.machine.specs.Limits.{most_string_bytes};

use crate::copying::copy_string;
use crate::literals::Literals;
use itoa::Buffer;
use machine::ending::Ending;
use text::span::{Bytes, Space, Span};

pub const STRINGS: u16 = 2048;

pub const STRING_BYTES: usize = 32768;

// The bytes lent, how many of them strings take, and how many strings there are.
#[derive(Drop)]
pub struct Strings<'m> {
    pub(crate) bytes: &'m mut [u8],
    pub(crate) used: u16,
    pub(crate) count: u16,
    ghost within: { used ≤ length bytes.now },
    ghost few: { used ≤ most_string_bytes },
}

impl<'m> Strings<'m> {
    ghost use Rattle.effects.specs.Spending.{memory_with, SameSlice, Charges, Behind, Makes};

    pub fn new(bytes: &'m mut [u8]) -> Strings<'m>
        ensures none { (result.count ≡ 0) × (result.used ≡ 0) }
        ensures lent { result.bytes ≡ bytes.entry }
    {
        Strings {
            bytes,
            used: 0,
            count: 0,
        }
    }

    // Strings that stand in lent bytes, of which they take the first `used`, or as many as they may.
    pub fn resume(bytes: &'m mut [u8], used: u16, count: u16) -> Strings<'m>
        ensures used { result.used ≡ min (min used (length bytes.old)) most_string_bytes }
        ensures count { result.count ≡ count }
        ensures lent { result.bytes ≡ bytes.entry }
    {
        let used = usize::from(used).min(bytes.len()).min(STRING_BYTES) as u16;
        Strings { bytes, used, count }
    }

    // How many bytes are lent.
    pub fn room(&self) -> usize
        ensures bytes { result ≡ length self.now.bytes.now }
    {
        self.bytes.len()
    }

    // How many bytes strings take, and how many strings there are.
    pub fn taken(&self) -> (u16, u16)
        ensures numbers { (result.0 ≡ self.now.used) × (result.1 ≡ self.now.count) }
    {
        (self.used, self.count)
    }

    pub fn clear(&mut self)
        ensures none { (self.new.count ≡ 0) × (self.new.used ≡ 0) }
        ensures lent { self.new.bytes ≡ self.old.bytes }
    {
        self.used = 0;
        self.count = 0;
    }

    // One more string of n bytes, or no space for it; its bytes are still to be written.
    fn add(&mut self, n: usize) -> Result<Span, Ending>
        ensures charged { most_string_bytes ≤ length self.old.bytes.now → Charges n self.old result self.new }
        ensures within { Behind n self.old result self.new }
        ensures lent { self.new.bytes ≡ self.old.bytes }
    {
        let room = self.bytes.len().min(STRING_BYTES) - usize::from(self.used);
        if self.count >= STRINGS || n > room {
            return Err(Ending::NoTextSpace);
        }
        let string = Span {
            space: Space::Made,
            start: self.used,
            len: n as u16,
        };
        self.used += string.len;
        self.count += 1;
        Ok(string)
    }

    // An integer as a string.
    pub fn to_s(&mut self, n: i32) -> Result<Span, Ending>
        ensures made { most_string_bytes ≤ length self.old.bytes.now → Makes (signed_decimal n) self.old result self.new }
        ensures lent { SameSlice self.old.bytes self.new.bytes }
    {
        let mut buffer = Buffer::new();
        let digits = buffer.format(n).as_bytes();
        let string = self.add(digits.len())?;
        let start = usize::from(string.start);
        self.bytes[start..start + digits.len()].copy_from_slice(digits);
        Ok(string)
    }

    // Two strings one behind the other.
    pub fn concat(&mut self, a: Span, b: Span, literals: Literals<'_, '_>) -> Result<Span, Ending>
        ensures made { most_string_bytes ≤ length self.old.bytes.now → made_end a ≤ self.old.used → made_end b ≤ self.old.used → Makes (bytes_of (memory_with literals.entry self.old.bytes.now) a ++ bytes_of (memory_with literals.entry self.old.bytes.now) b) self.old result self.new }
        ensures lent { SameSlice self.old.bytes self.new.bytes }
    {
        let m = usize::from(a.len);
        let n = usize::from(b.len);
        let string = self.add(m + n)?;
        let all = &mut *self.bytes;
        let (made, room) = all.split_at_mut(usize::from(string.start));
        let bytes = Bytes {
            fixed: literals.fixed,
            texts: literals.texts,
            made,
        };
        copy_string(a, bytes, &mut room[..m]);
        copy_string(b, bytes, &mut room[m..m + n]);
        Ok(string)
    }
}
