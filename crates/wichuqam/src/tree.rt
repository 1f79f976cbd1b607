// The task `tree`: the tree of a rule or a class, one line a node, or its refusal.
use crate::print_refused;
use display::bytes::Shown;
use display::forms::{Line, word};
use display::tables::{ROOM, first};
use nodes::node::{Method, Node};
use std::io::Read;
use syntax::class::judge_class;
use syntax::rule::judge_rule;
use text::span::Span;

// The bytes of the text that the span has.
fn shown(text: &[u8], span: Span) -> Shown<'_> {
    let from = span.start as usize;
    Shown::reversible(text.get(from..from + span.len as usize).unwrap_or(b""))
}

// Number, place, and the form with its value or word and its parts.
fn print_nodes(rt: &HostRuntime, text: &[u8], nodes: &[Node]) -> anyhow::Result<()> {
    for (i, node) in nodes.iter().enumerate() {
        let line = Line {
            form: node.form,
            word: word(node.form).map(|span| shown(text, span)),
            between: '\t',
        };
        println!(rt; "{i}\t{}\t{line}", node.place)?;
    }
    Ok(())
}

// Name, root and parameters.
fn print_method(rt: &HostRuntime, text: &[u8], method: &Method) -> anyhow::Result<()> {
    print!(rt; "method\t{}\t{}", shown(text, method.name), method.root)?;
    for name in method.parameters.kept() {
        print!(rt; "\t{}", shown(text, *name))?;
    }
    println!(rt; "")?;
    Ok(())
}

fn list_rule(rt: &HostRuntime, text: &[u8]) -> anyhow::Result<()> {
    let mut nodes = vec![in rt.alloc(); Node::default(); ROOM]?;
    match judge_rule(text, 0, &mut nodes) {
        Ok(rule) => print_nodes(rt, text, first(&nodes, rule.nodes)),
        Err(refusal) => print_refused(rt, refusal.into()),
    }
}

fn list_class(rt: &HostRuntime, text: &[u8]) -> anyhow::Result<()> {
    let mut nodes = vec![in rt.alloc(); Node::default(); ROOM]?;
    let mut methods = vec![in rt.alloc(); Method::default(); ROOM]?;
    match judge_class(text, 0, &mut nodes, &mut methods) {
        Ok(class) => {
            print_nodes(rt, text, first(&nodes, class.nodes))?;
            for method in first(&methods, class.methods) {
                print_method(rt, text, method)?;
            }
            println!(rt;
                "class\t{}\t{}",
                shown(text, class.name),
                shown(text, class.parent)
            )?;
            Ok(())
        }
        Err(refusal) => print_refused(rt, refusal.into()),
    }
}

#[derive(Clone, Copy)]
pub enum Kind {
    Rule,
    Class,
}

pub fn list(rt: &HostRuntime, kind: Kind) -> anyhow::Result<()> {
    let mut text = Vec::new(rt.alloc());
    let _ = rt.stdin().read_to_end(&mut text)?;
    match kind {
        Kind::Rule => list_rule(rt, &text),
        Kind::Class => list_class(rt, &text),
    }
}
