// The bucket of a pair, numbered from its table and from what its key means.
ghost use Rattle.std.specs.Prelude.{◌≡◌, ◌-◌, ◌^◌, ◌<◌, ◌≤◌, slice_index};
ghost use Rattle.text.specs.Memory.{memory_of, bytes_of};
ghost use Rattle.store.specs.Val.{meaning};
ghost use Rattle.store.specs.Filed.{place_of};
ghost use Rattle.buckets.specs.Numbers.{number_of, bucket_of};

use store::key::Key;
use store::value::Value;
use text::span::{Bytes, Span, byte_at};

// A byte of a string; past its end it is 0.
fn byte_of(string: Span, i: u16, bytes: Bytes<'_, '_, '_>) -> u8
    ensures { result ≡ slice_index (bytes_of (memory_of bytes.entry) string) i }
{
    if i < string.len {
        byte_at(
            bytes,
            string.space,
            usize::from(string.start) + usize::from(i),
        )
    } else {
        0
    }
}

// Of a string, its length and three of its bytes: as quick for a long one as for a short one.
fn number_of(key: Value, bytes: Bytes<'_, '_, '_>) -> usize
    ensures value { result ≡ number_of (meaning (memory_of bytes.entry) key) }
    ensures small { result ≤ 2 ^ 31 }
{
    match key {
        Value::Int(n) => n.unsigned_abs() as usize,
        Value::Str(s) => {
            let first = byte_of(s, 0, bytes);
            let middle = byte_of(s, s.len / 2, bytes);
            let last = byte_of(s, s.len.saturating_sub(1), bytes);
            usize::from(s.len)
                + usize::from(first) * 3
                + usize::from(middle) * 5
                + usize::from(last) * 7
        }
        Value::Ident(i) => usize::from(i.0),
        Value::Loc(l) => usize::from(l.0),
    }
}

pub fn bucket_of(key: Key, buckets: usize, bytes: Bytes<'_, '_, '_>) -> usize
    requires { 0 < buckets }
    ensures value { result ≡ bucket_of buckets (place_of (memory_of bytes.entry) key) }
    ensures below { result < buckets }
{
    (usize::from(key.location.0) * 31 + number_of(key.value, bytes)) % buckets
}
