// The first words say what to do; each task reads standard input and prints its answer.
#![tactic(auto)]

use anyhow::anyhow;
use display::refused::Refused;
use std::env;

mod tokens;
mod tree;

const USAGE: &str = "usage: wichuqam TASK

tasks, each of which reads a text from standard input:
  tokens       print its tokens, one a line
  tree rule    print the tree of the rule that it is, one node a line
  tree class   print the trees of the class that it is, one node a line
";

#[derive(Clone, Copy)]
enum Task {
    Tokens,
    Tree(tree::Kind),
}

impl Task {
    // The task that the words name, or the word that names none.
    fn of<'a>(first: &'a str, second: Option<&'a str>) -> Result<Task, &'a str> {
        match (first, second) {
            ("tokens", _) => Ok(Task::Tokens),
            ("tree", Some("rule")) => Ok(Task::Tree(tree::Kind::Rule)),
            ("tree", Some("class")) => Ok(Task::Tree(tree::Kind::Class)),
            ("tree", Some(other)) => Err(other),
            (other, _) => Err(other),
        }
    }
}

fn unknown(rt: &HostRuntime, what: &str) -> anyhow::Result<()> {
    eprintln!(rt; "wichuqam: there is no task `{what}`")?;
    rt.eprint(USAGE)?;
    Err(anyhow!("nothing was done"))
}

// A text's refusal, on a line of its own.
fn print_refused(rt: &HostRuntime, refused: Refused) -> anyhow::Result<()> {
    println!(rt; "no\t{}\t{}", refused.number, refused.place)?;
    Ok(())
}

fn run(rt: &HostRuntime) -> anyhow::Result<()> {
    let mut words = env::args(rt)?.skip(1);
    let Some(first) = words.next() else {
        rt.print(USAGE)?;
        return Ok(());
    };
    let second = words.next();
    match Task::of(first.as_str(), second.as_deref()) {
        Ok(Task::Tokens) => tokens::list(rt),
        Ok(Task::Tree(kind)) => tree::list(rt, kind),
        Err(other) => unknown(rt, other),
    }
}

fn main(rt: HostRuntime) -> anyhow::Result<()> {
    run(&rt)
}
