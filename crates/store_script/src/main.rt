// One script over both stores: every ask with the answer of the list and of the buckets, then how often random answers agree.
#![tactic(auto)]

use crate::ask::{Reply, agree, put_to};
use crate::random::Random;
use crate::script::{AB, AB_MADE, FIXED, MADE, SCRIPT, TEXTS};
use crate::show::Shown;
use buckets::{BucketStore, UNLINKED, UNUSED};
use list::{ListStore, Pair};
use std::io;
use store::Store;
use store::capacity::Capacity;
use store::key::Key;
use store::laws::write_then_read;
use store::value::{Location, Value};
use text::span::Bytes;

mod ask;
mod random;
mod script;
mod show;

fn run_script<L: Store, B: Store>(
    rt: &HostRuntime,
    list: &mut L,
    buckets: &mut B,
    bytes: Bytes<'_, '_, '_>,
) -> io::Result<()> {
    for ask in SCRIPT {
        let by_list = Shown {
            item: put_to(list, ask, bytes),
            bytes,
        };
        let by_buckets = Shown {
            item: put_to(buckets, ask, bytes),
            bytes,
        };
        println!(rt; "{}: {by_list} | {by_buckets}", Shown { item: ask, bytes })?;
    }
    Ok(())
}

// How many of the asks both stores answer alike.
fn count_agreed<L: Store, B: Store>(
    list: &mut L,
    buckets: &mut B,
    asks: usize,
    bytes: Bytes<'_, '_, '_>,
) -> usize {
    Random::new(7)
        .take(asks)
        .filter(|ask| agree(
            put_to(list, *ask, bytes),
            put_to(buckets, *ask, bytes),
            bytes,
        ))
        .count()
}

fn show_capacity(rt: &HostRuntime, tables: u16, pairs: u16) -> io::Result<()> {
    match Capacity::new(tables, pairs) {
        Ok(_) => println!(rt; "{tables} tables, {pairs} pairs: a capacity"),
        Err(too_large) => println!(rt; "{tables} tables, {pairs} pairs: {too_large}"),
    }
}

// Writes under one spelling of a key and reads under another.
fn show_written<S: Store>(
    rt: &HostRuntime,
    name: &str,
    store: &mut S,
    bytes: Bytes<'_, '_, '_>,
) -> io::Result<()> {
    print!(rt; "{name} writes \"ab\" := 12 and reads it: ")?;
    let key = Key {
        location: Location(0),
        value: AB,
    };
    match write_then_read(store, key, Value::Int(12), AB_MADE, bytes) {
        Ok(found) => println!(rt;
            "{}",
            Shown {
                item: Reply::Found(found),
                bytes
            }
        ),
        Err(_) => println!(rt; "refused"),
    }
}

fn main(rt: HostRuntime) -> io::Result<()> {
    let bytes = Bytes {
        fixed: FIXED,
        texts: TEXTS,
        made: MADE,
    };
    let mut pairs = [Pair::default(); 40];
    let mut entries = [UNUSED; 40];
    let mut chains = [UNLINKED; 5];

    // small and large lie within the limits, so neither is refused
    let Ok(small) = Capacity::new(2, 3) else {
        return Ok(());
    };
    let mut list = ListStore::new(&mut pairs, small);
    let mut buckets = BucketStore::new(&mut entries, &mut chains, small);
    run_script(&rt, &mut list, &mut buckets, bytes)?;
    show_written(&rt, "list", &mut list, bytes)?;
    show_written(&rt, "buckets", &mut buckets, bytes)?;

    let Ok(large) = Capacity::new(4, 16384) else {
        return Ok(());
    };
    let mut list = ListStore::new(&mut pairs, large);
    let mut buckets = BucketStore::new(&mut entries, &mut chains, large);
    let agreed = count_agreed(&mut list, &mut buckets, 5000, bytes);
    println!(rt; "random asks: {agreed} of 5000 agree")?;

    show_capacity(&rt, 4096, 16384)?;
    show_capacity(&rt, 4097, 16384)?;
    show_capacity(&rt, 4096, 16385)
}
