// Reads, tests and writes of random keys in stores that are filled with pairs.
use buckets::{BucketStore, Chain, Chained};
use list::{ListStore, Pair};
use std::time::Instant;
use store::Store;
use store::capacity::Capacity;
use store::key::Key;
use store::value::{Location, Value};
use text::span::{Bytes, Space, Span};

const TABLES: u16 = 64;

// The key of pair i: every second one is a string of 8 bytes.
fn key(i: u16) -> Key {
    let value = if i % 2 == 0 {
        Value::Int(i as i32)
    } else {
        Value::Str(Span {
            space: Space::Texts,
            start: i,
            len: 8,
        })
    };
    Key {
        location: Location(i % TABLES),
        value,
    }
}

// Numbers that look random: each is made of the one before.
#[derive(Drop)]
struct Random(u32);

impl Random {
    fn next(&mut self) -> u32 {
        self.0 = self.0.wrapping_mul(1664525).wrapping_add(1013904223);
        self.0
    }
}

fn scramble(texts: &mut [u8]) {
    let mut random = Random(7);
    for byte in texts {
        *byte = (random.next() >> 24) as u8;
    }
}

fn fill<S: Store>(store: &mut S, pairs: u16, bytes: Bytes<'_, '_, '_>) {
    store.clear();
    for _ in 0..TABLES {
        let _ = store.make();
    }
    for i in 0..pairs {
        let _ = store.write(key(i), Value::Int(0), bytes);
    }
}

// Of the operations a quarter are writes, a quarter tests and half reads; answers how many found their key.
fn work<S: Store>(store: &mut S, pairs: u16, operations: u32, bytes: Bytes<'_, '_, '_>) -> u32 {
    let mut random = Random(1);
    let mut found: u32 = 0;
    for n in 0..operations {
        let high = (random.next() >> 16) as u16;
        let i = if pairs == 0 { 0 } else { high % pairs };
        let present = match n % 4 {
            0 => store.write(key(i), Value::Int(1), bytes).is_ok(),
            1 => store.has(key(i), bytes).unwrap_or(false),
            _ => matches!(store.read(key(i), bytes), Ok(Some(_))),
        };
        if present {
            found = found.saturating_add(1);
        }
    }
    found
}

fn time<S: Store>(
    rt: &HostRuntime,
    name: &str,
    store: &mut S,
    pairs: u16,
    operations: u32,
    bytes: Bytes<'_, '_, '_>,
) -> anyhow::Result<()> {
    fill(store, pairs, bytes);
    let start = Instant::now(rt)?;
    let found = work(store, pairs, operations, bytes);
    let micros = start.elapsed(rt)?.as_micros().min(0xffff_ffff) as u64;
    let rate = if micros == 0 {
        0
    } else {
        operations as u64 * 1000000 / micros
    };
    println!(rt; "{name}\t{pairs}\t{operations}\t{found}\t{rate}")?;
    Ok(())
}

pub fn measure(rt: &HostRuntime) -> anyhow::Result<()> {
    let mut texts = [0u8; 16400];
    scramble(&mut texts);
    let bytes = Bytes {
        fixed: b"",
        texts: &texts,
        made: b"",
    };
    let mut pairs = [Pair::default(); 16384];
    let mut entries = [Chained::default(); 16384];
    let mut chains = [Chain::default(); 16384];
    println!(rt; "store\tpairs\toperations\tfound\ta second")?;
    let capacity = Capacity::new(TABLES, 16384)?;
    let mut list = ListStore::new(&mut pairs, capacity);
    time(rt, "list", &mut list, 100, 4000000, bytes)?;
    time(rt, "list", &mut list, 1000, 400000, bytes)?;
    time(rt, "list", &mut list, 16384, 40000, bytes)?;
    let mut buckets = BucketStore::new(&mut entries, &mut chains, capacity);
    time(rt, "buckets", &mut buckets, 100, 40000000, bytes)?;
    time(rt, "buckets", &mut buckets, 1000, 40000000, bytes)?;
    time(rt, "buckets", &mut buckets, 16384, 40000000, bytes)
}
