// How fast the stores and the machine are. Run by hand: without a word it measures nothing.
#![tactic(auto)]

use anyhow::anyhow;
use std::env;

mod loops;
mod stores;

const USAGE: &str = "usage: bench SUBJECT

subjects:
  stores    operations a second of both stores
  machine   steps a second of three loops over both stores
";

fn run(rt: &HostRuntime) -> anyhow::Result<()> {
    let mut words = env::args(rt)?;
    let _ = words.next();
    let Some(subject) = words.next() else {
        rt.print(USAGE)?;
        return Ok(());
    };
    match subject.as_str() {
        "stores" => stores::measure(rt),
        "machine" => loops::measure(rt),
        other => {
            eprintln!(rt; "bench: there is no subject `{other}`")?;
            rt.eprint(USAGE)?;
            Err(anyhow!("nothing was measured"))
        }
    }
}

fn main(rt: HostRuntime) -> anyhow::Result<()> {
    run(&rt)
}
