// Texts beside their answers: a line for each text with its nodes, or the refusal.
#![tactic(auto)]

use display::bytes::Shown;
use display::forms::Line;
use display::refused::Refused;
use display::tables::{ROOM, first};
use nodes::node::{Method, Node};
use std::{fmt, str};
use syntax::class::judge_class;
use syntax::rule::judge_rule;

mod samples;

// More nodes or methods than this are only counted.
const SHOWN: usize = 12;

// What stands before the first such byte, and what behind it.
fn split_once(bytes: &[u8], mark: u8) -> Option<(&[u8], &[u8])> {
    let mut parts = bytes.splitn(2, |b| *b == mark);
    Some((parts.next()?, parts.next()?))
}

// Of `3|ab}x`: how often the unit comes, the unit, and what stands behind.
fn repeated(piece: &[u8]) -> Option<(usize, &[u8], &[u8])> {
    let (count, behind) = split_once(piece, b'|')?;
    let (unit, rest) = split_once(behind, b'}')?;
    let count = str::from_utf8(count).ok()?.parse::<usize>().ok()?;
    Some((count, unit, rest))
}

// The text that a sample stands for: `{3|ab}` is `ababab`, all else is itself.
fn expand(rt: &HostRuntime, sample: &[u8]) -> anyhow::Result<Vec<u8>> {
    let mut text = Vec::new(rt.alloc());
    for piece in sample.split(|b| *b == b'{') {
        let (count, unit, rest) = repeated(piece).unwrap_or((0, b"", piece));
        for _ in 0..count {
            text.extend_from_slice(unit)?;
        }
        text.extend_from_slice(rest)?;
    }
    Ok(text)
}

// How many nodes there are, and each of a few.
#[derive(Clone, Copy)]
struct Nodes<'a>(&'a [Node]);

impl fmt::Display for Nodes<'_> {
    fn fmt<W: fmt::Write>(&self, f: &mut fmt::Formatter<W>) -> fmt::Result {
        write!(f, "  nodes {}", self.0.len())?;
        if self.0.len() <= SHOWN {
            for (i, node) in self.0.iter().enumerate() {
                let line = Line {
                    form: node.form,
                    word: None,
                    between: ' ',
                };
                write!(f, "  {i}@{}:{line}", node.place)?;
            }
        }
        Ok(())
    }
}

// How many methods there are, and each of a few.
#[derive(Clone, Copy)]
struct Methods<'a>(&'a [Method]);

impl fmt::Display for Methods<'_> {
    fn fmt<W: fmt::Write>(&self, f: &mut fmt::Formatter<W>) -> fmt::Result {
        write!(f, "  methods {}", self.0.len())?;
        if self.0.len() <= SHOWN {
            for (i, method) in self.0.iter().enumerate() {
                write!(f, "  {i}:{} of {}", method.root, method.parameters.count)?;
            }
        }
        Ok(())
    }
}

fn print_rule(rt: &HostRuntime, sample: &[u8]) -> anyhow::Result<()> {
    let text = expand(rt, sample)?;
    let mut nodes = vec![in rt.alloc(); Node::default(); ROOM]?;
    print!(rt; "rule [{}]", Shown::visible(sample))?;
    match judge_rule(&text, 0, &mut nodes) {
        Ok(rule) => println!(rt; "{}", Nodes(first(&nodes, rule.nodes)))?,
        Err(refusal) => println!(rt; "  {}", Refused::from(refusal))?,
    }
    Ok(())
}

fn print_class(rt: &HostRuntime, sample: &[u8]) -> anyhow::Result<()> {
    let text = expand(rt, sample)?;
    let mut nodes = vec![in rt.alloc(); Node::default(); ROOM]?;
    let mut methods = vec![in rt.alloc(); Method::default(); ROOM]?;
    print!(rt; "class [{}]", Shown::visible(sample))?;
    match judge_class(&text, 0, &mut nodes, &mut methods) {
        Ok(class) => {
            let nodes = Nodes(first(&nodes, class.nodes));
            let methods = Methods(first(&methods, class.methods));
            println!(rt; "{nodes}{methods}")?;
        }
        Err(refusal) => println!(rt; "  {}", Refused::from(refusal))?,
    }
    Ok(())
}

fn main(rt: HostRuntime) -> anyhow::Result<()> {
    for sample in samples::RULES {
        print_rule(&rt, sample)?;
    }
    for sample in samples::CLASSES {
        print_class(&rt, sample)?;
    }
    Ok(())
}
