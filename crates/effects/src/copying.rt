// Strings copied byte by byte: they may lie past the end of what is lent, where each byte is 0.
ghost use Rattle.std.specs.Prelude.{◌≡◌, length};
ghost use Rattle.text.specs.Memory.{memory_of, bytes_of};

use text::span::{Bytes, Span, byte_at};

pub(crate) fn copy_string(string: Span, bytes: Bytes<'_, '_, '_>, to: &mut [u8])
    requires fits { length to.old ≡ string.len }
    ensures copied { to.new ≡ bytes_of (memory_of bytes.entry) string }
{
    let start = usize::from(string.start);
    for (i, byte) in to.iter_mut().enumerate() {
        *byte = byte_at(bytes, string.space, start + i);
    }
}
