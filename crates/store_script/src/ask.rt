// What can be asked of a store, and what it answers.
use store::key::Key;
use store::value::{Location, Value, same};
use store::{Refusal, Store};
use text::span::Bytes;

#[derive(Clone, Copy)]
pub enum Ask {
    Clear,
    Make,
    Has(Key),
    Read(Key),
    Write(Key, Value),
}

#[derive(Clone, Copy)]
pub enum Reply {
    Cleared,
    Made(Option<Location>),
    Has(bool),
    Found(Option<Value>),
    Written,
}

// A refusal of any kind is told as a write's.
pub fn put_to<S: Store>(
    store: &mut S,
    ask: Ask,
    bytes: Bytes<'_, '_, '_>,
) -> Result<Reply, Refusal> {
    Ok(match ask {
        Ask::Clear => {
            store.clear();
            Reply::Cleared
        }
        Ask::Make => Reply::Made(store.make()),
        Ask::Has(key) => Reply::Has(store.has(key, bytes)?),
        Ask::Read(key) => Reply::Found(store.read(key, bytes)?),
        Ask::Write(key, value) => {
            store.write(key, value, bytes)?;
            Reply::Written
        }
    })
}

impl Reply {
    // Whether two replies say the same; values by what they mean.
    pub fn agrees(self, other: Reply, bytes: Bytes<'_, '_, '_>) -> bool {
        match (self, other) {
            (Reply::Cleared, Reply::Cleared) | (Reply::Written, Reply::Written) => true,
            (Reply::Made(x), Reply::Made(y)) => x == y,
            (Reply::Has(x), Reply::Has(y)) => x == y,
            (Reply::Found(Some(x)), Reply::Found(Some(y))) => same(x, y, bytes),
            (Reply::Found(x), Reply::Found(y)) => x.is_none() && y.is_none(),
            _ => false,
        }
    }
}

// Whether two answers say the same.
pub fn agree(
    a: Result<Reply, Refusal>,
    b: Result<Reply, Refusal>,
    bytes: Bytes<'_, '_, '_>,
) -> bool {
    match (a, b) {
        (Ok(x), Ok(y)) => x.agrees(y, bytes),
        (Err(x), Err(y)) => x == y,
        _ => false,
    }
}
