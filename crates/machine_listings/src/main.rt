// Each listing over the list store and over the buckets: how it ended, in how many steps, and what it printed.
#![tactic(auto)]

use crate::listings::{FIXED, LISTINGS, Listing};
use buckets::{BucketStore, Chain, Chained};
use calls::frame::FIRST;
use calls::program::Code;
use code::table::{Full, Open, Record, Sealed, UNLAID};
use effects::literals::Literals;
use list::{ListStore, Pair};
use machine::ending::Ending;
use std::io;
use store::Store;
use store::capacity::Capacity;
use store::value::Value;
use vm::run::Run;

mod listings;

const BUDGET: u32 = 1000;

// Both functions of a listing. `bench` lays its own the same way: five calls, which a function for both would only rename.
fn lay(listing: Listing, records: &mut [Record]) -> Result<Sealed, Full> {
    let mut open = Open::new();
    open.lay_all(records, listing.main, 0)?;
    open.next_function()?;
    open.lay_all(records, listing.other, 0)?;
    Ok(open.seal())
}

fn show_end(rt: &HostRuntime, made: u32, ending: Ending, printed: &[u8]) -> io::Result<()> {
    print!(rt; "ending {} in {made} steps, printed \"", ending.number())?;
    for byte in printed {
        print!(rt; "{}", char::from(*byte))?;
    }
    print!(rt; "\"")
}

// A run of sealed code from its beginning.
fn run<S: Store>(
    rt: &HostRuntime,
    sealed: &Sealed,
    records: &[Record],
    store: &mut S,
) -> io::Result<()> {
    let mut callers = [FIRST; 31];
    let mut registers = [None; 4096];
    let mut strings = [0; 32768];
    let mut output = [0; 24];
    let mut run = Run::new(&mut callers, &mut registers, &mut strings, &mut output);
    let code = Code {
        sealed,
        records,
        literals: Literals {
            fixed: FIXED,
            texts: b"",
        },
    };
    match (run.begin(store), run.steps(BUDGET, code, store)) {
        (Ok(()), Ok(ran)) => {
            let ending = ran.ending.unwrap_or(Ending::NotEnded);
            show_end(rt, ran.steps, ending, run.spent.printed())
        }
        _ => print!(rt; "too little memory"),
    }
}

fn show(rt: &HostRuntime, listing: Listing) -> io::Result<()> {
    let mut records = [UNLAID; 64];
    print!(rt; "{}: ", listing.name)?;
    let Ok(code) = lay(listing, &mut records) else {
        return println!(rt; "too little memory for code");
    };
    let Ok(capacity) = Capacity::new(3, 4) else {
        return println!(rt; "no capacity");
    };
    let mut pairs = [Pair::default(); 4];
    let mut list = ListStore::new(&mut pairs, capacity);
    run(rt, &code, &records, &mut list)?;
    print!(rt; " | ")?;
    let mut entries = [Chained::default(); 4];
    let mut chains = [Chain::default(); 3];
    let mut buckets = BucketStore::new(&mut entries, &mut chains, capacity);
    run(rt, &code, &records, &mut buckets)?;
    println!(rt)
}

fn main(rt: HostRuntime) -> io::Result<()> {
    for listing in LISTINGS {
        show(&rt, listing)?;
    }
    Ok(())
}
