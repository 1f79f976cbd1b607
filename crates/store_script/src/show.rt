// Asks and answers in words: each beside the bytes that its strings lie in.
use crate::ask::{Ask, Reply};
use std::fmt;
use store::Refusal;
use store::key::Key;
use store::value::Value;
use text::span::{Bytes, Span, byte_at};

#[derive(Clone, Copy)]
pub struct Shown<'f, 't, 'm, T> {
    pub item: T,
    pub bytes: Bytes<'f, 't, 'm>,
}

impl fmt::Display for Shown<'_, '_, '_, Span> {
    fn fmt<W: fmt::Write>(&self, f: &mut fmt::Formatter<W>) -> fmt::Result {
        write!(f, "\"")?;
        // a byte past the memory's end is 0, so a span is no slice
        for i in 0..usize::from(self.item.len) {
            let byte = byte_at(
                self.bytes,
                self.item.space,
                usize::from(self.item.start) + i,
            );
            write!(f, "{}", byte as char)?;
        }
        write!(f, "\"")
    }
}

impl fmt::Display for Shown<'_, '_, '_, Value> {
    fn fmt<W: fmt::Write>(&self, f: &mut fmt::Formatter<W>) -> fmt::Result {
        match self.item {
            Value::Int(n) => write!(f, "{n}"),
            Value::Str(item) => {
                let bytes = self.bytes;
                write!(f, "{}", Shown { item, bytes })
            }
            Value::Ident(i) => write!(f, "identifier {}", i.0),
            Value::Loc(l) => write!(f, "location {}", l.0),
        }
    }
}

impl fmt::Display for Shown<'_, '_, '_, Key> {
    fn fmt<W: fmt::Write>(&self, f: &mut fmt::Formatter<W>) -> fmt::Result {
        let Key { location, value } = self.item;
        let bytes = self.bytes;
        write!(f, "{} {}", location.0, Shown { item: value, bytes })
    }
}

impl fmt::Display for Shown<'_, '_, '_, Ask> {
    fn fmt<W: fmt::Write>(&self, f: &mut fmt::Formatter<W>) -> fmt::Result {
        let bytes = self.bytes;
        match self.item {
            Ask::Clear => write!(f, "clear"),
            Ask::Make => write!(f, "make"),
            Ask::Has(item) => write!(f, "has {}", Shown { item, bytes }),
            Ask::Read(item) => write!(f, "read {}", Shown { item, bytes }),
            Ask::Write(key, value) => {
                let key = Shown { item: key, bytes };
                let value = Shown { item: value, bytes };
                write!(f, "write {key} := {value}")
            }
        }
    }
}

impl fmt::Display for Shown<'_, '_, '_, Reply> {
    fn fmt<W: fmt::Write>(&self, f: &mut fmt::Formatter<W>) -> fmt::Result {
        let bytes = self.bytes;
        match self.item {
            Reply::Cleared => write!(f, "cleared"),
            Reply::Made(Some(location)) => write!(f, "table {}", location.0),
            Reply::Made(None) => write!(f, "no more tables"),
            Reply::Has(true) => write!(f, "yes"),
            Reply::Has(false) => write!(f, "no"),
            Reply::Found(Some(item)) => write!(f, "{}", Shown { item, bytes }),
            Reply::Found(None) => write!(f, "nothing"),
            Reply::Written => write!(f, "written"),
        }
    }
}

impl fmt::Display for Shown<'_, '_, '_, Result<Reply, Refusal>> {
    fn fmt<W: fmt::Write>(&self, f: &mut fmt::Formatter<W>) -> fmt::Result {
        let bytes = self.bytes;
        match self.item {
            Ok(item) => write!(f, "{}", Shown { item, bytes }),
            Err(refusal) => write!(f, "{refusal}"),
        }
    }
}
