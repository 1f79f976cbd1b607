// A string of a run is a span: where its bytes lie in the memories that are lent with a call.
ghost use Rattle.std.specs.Prelude.{◌≡◌, Decides, slice_index};
ghost use Rattle.text.specs.Memory.{memory_of, byte_of, bytes_of};

// The fixed names, the texts that the caller lends, and the strings that the run made.
#[derive(Clone, Copy, PartialEq, Eq, Debug, Default)]
pub enum Space {
    Fixed,
    #[default]
    Texts,
    Made,
}

#[derive(Clone, Copy, PartialEq, Eq, Debug, Default)]
pub struct Span {
    pub space: Space,
    pub start: u16,
    pub len: u16,
}

// The bytes lent with a call, each memory for a time of its own.
#[derive(Clone, Copy)]
pub struct Bytes<'f, 't, 'm> {
    pub fixed: &'f [u8],
    pub texts: &'t [u8],
    pub made: &'m [u8],
}

// A byte of a space; past the end of what is lent it is 0.
pub fn byte_at(bytes: Bytes<'_, '_, '_>, space: Space, i: usize) -> u8
    ensures { result ≡ byte_of (memory_of bytes.entry) space i }
{
    let memory = match space {
        Space::Fixed => bytes.fixed,
        Space::Texts => bytes.texts,
        Space::Made => bytes.made,
    };
    memory.get(i).copied().unwrap_or(0)
}

// Whether two spans mean the same bytes.
pub fn same_span(bytes: Bytes<'_, '_, '_>, a: Span, b: Span) -> bool
    ensures { Decides result (bytes_of (memory_of bytes.entry) a ≡ bytes_of (memory_of bytes.entry) b) }
{
    if a.len != b.len {
        return false;
    }
    // the same place: no byte need be read
    a == b
        || (0..usize::from(a.len)).all(|i| {
            byte_at(bytes, a.space, usize::from(a.start) + i)
                == byte_at(bytes, b.space, usize::from(b.start) + i)
        })
}
