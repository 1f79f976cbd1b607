// The parser's functions for callers that lend a table and names apart, each beside the number of what stands in it; the text of a name or a leaf may have any length.
ghost use Rattle.std.specs.Prelude.{◌≡◌, ◌+◌, ◌<◌, ◌≤◌, length, slice_set, IfOk, MatchResult};
ghost use Rattle.text.specs.Memory.{bytes_of};
ghost use Rattle.nodes.specs.Trees.{span_of};
ghost use Rattle.syntax.specs.declared.sight.Sort.TheVariants as sort;
ghost use Rattle.syntax.specs.Left.{left};
ghost use Rattle.syntax.specs.Sight.{shown};
ghost use Rattle.syntax.specs.Sizes.{lone};
ghost use Rattle.syntax.specs.Parsing.{Refused};
ghost use Rattle.syntax.specs.LentApart.{meant, written_form, Learns, LearnsTarget, Parsed, Sequence, Moves, Put};

use crate::limits::{NAMES, STRING};
use crate::names::own;
use crate::number::value;
use crate::read::{Size, Stuck};
use crate::sight::Sort;
use crate::source::Text;
use crate::table::{self, Table};
use nodes::node::{Form, Node};
use stack::Stack;
use text::search::first_equal;
use text::span::{Bytes, Span};

// Stands for all counts of names that are more than a body may have.
const MANY: u8 = NAMES as u8 + 1;

// A token's sort, and its bytes: `from` up to `to`.
#[derive(Clone, Copy)]
pub struct Sight {
    pub sort: Sort,
    pub from: u16,
    pub to: u16,
}

// What can be written to, with `=` behind it: the bytes of its name, and where the value begins.
#[derive(Clone, Copy)]
pub struct Target {
    pub field: bool,
    pub from: u16,
    pub to: u16,
    pub value: u16,
}

// An expression that was read: where it ends, how many nodes and names of the body there are so far, and its root with its place.
#[derive(Clone, Copy)]
pub struct Got {
    pub to: u16,
    pub nodes: u16,
    pub names: u8,
    pub root: u16,
    pub place: u16,
    pub size: Size,
}

// The names with one more, if it is not among them; 17 stands for all that is more than 16.
pub fn learn(text: &[u8], names: &mut [Span], count: u8, name: Span) -> u8
    ensures one_more_if_new { Learns text.now names.old names.new count (bytes_of (lone text.now) name) result }
{
    let n = usize::from(count);
    if n > NAMES || n > names.len() {
        return MANY;
    }
    let bytes = Bytes {
        fixed: b"",
        texts: text,
        made: b"",
    };
    if first_equal(&names[..n], &name, bytes).is_some() {
        return count;
    }
    if n < names.len() {
        names[n] = name;
    }
    count + 1
}

// How many names a body has once the target is written to: a field's is none.
pub fn learn_target(text: &[u8], names: &mut [Span], m: u8, target: Target) -> u8
    requires { target.from ≤ target.to }
    ensures named_by_it { target.to ≤ length text.now → LearnsTarget text.now names.old names.new m (meant text.now target) result }
{
    if target.field {
        m
    } else {
        learn(text, names, m, own(target.from, target.to))
    }
}

// The bytes `from` up to `to` of a text that begins at `base`.
pub fn span(base: u16, from: u16, to: u16) -> Span
    requires { from ≤ to }
    ensures where_they_lie { result ≡ span_of base from to }
{
    Text { bytes: b"", base }.span(from, to)
}

// Writes the node while there is room, and counts on.
pub fn put(nodes: &mut [Node], n: u16, m: u8, node: Node, to: u16, size: Size) -> Got
    requires { n < to }
    ensures put { Put nodes.old nodes.new n m node to size result }
{
    let mut table = Table::resume(nodes, n);
    let got = table::put(&mut table, node, to, size);
    Got {
        to: got.to,
        nodes: table.count(),
        names: m,
        root: got.root,
        place: got.place,
        size: got.size,
    }
}

// The form of a write.
pub fn written(base: u16, target: Target, root: u16) -> Form
    requires { target.from ≤ target.to }
    ensures by_its_target { result ≡ written_form target.field (span_of base target.from target.to) root }
{
    let Target {
        field,
        from,
        to,
        ..
    } = target;
    let name = span(base, from, to);
    if field {
        Form::SetField(name, root)
    } else {
        Form::SetLocal(name, root)
    }
}

// A local, read.
pub fn local(
    text: &[u8],
    base: u16,
    at: u16,
    sight: Sight,
    nodes: &mut [Node],
    names: &mut [Span],
    n: u16,
    m: u8,
) -> Got
    requires few { n ≤ at }
    requires bounds { (at ≤ sight.from) × (sight.from < sight.to) × (sight.to ≤ length text.now) }
    requires begins { left text.now at ≡ shown text.now sort.Name sight.from sight.to }
    ensures moves { Moves text.now at n result }
    ensures reads { Parsed 1 text.now base at nodes.old nodes.new names.old names.new n m result }
{
    let known = learn(text, names, m, own(sight.from, sight.to));
    let node = Node {
        place: sight.from,
        form: Form::Local(span(base, sight.from, sight.to)),
    };
    put(nodes, n, known, node, sight.to, Size::leaf(true))
}

pub fn integer(
    text: &[u8],
    base: u16,
    at: u16,
    sight: Sight,
    nodes: &mut [Node],
    names: &mut [Span],
    n: u16,
    m: u8,
) -> Got
    requires few { n ≤ at }
    requires bounds { (at ≤ sight.from) × (sight.from < sight.to) × (sight.to ≤ length text.now) }
    requires begins { left text.now at ≡ shown text.now sort.Integer sight.from sight.to }
    ensures moves { Moves text.now at n result }
    ensures reads { Parsed 1 text.now base at nodes.old nodes.new names.old names.new n m result }
{
    let number = value(&text[sight.from as usize..sight.to as usize]);
    let node = Node {
        place: sight.from,
        form: Form::Int(number.unwrap_or(0)),
    };
    put(nodes, n, m, node, sight.to, Size::leaf(number.is_some()))
}

// A field, read.
pub fn field(
    text: &[u8],
    base: u16,
    at: u16,
    sight: Sight,
    nodes: &mut [Node],
    names: &mut [Span],
    n: u16,
    m: u8,
) -> Got
    requires few { n ≤ at }
    requires bounds { (at ≤ sight.from) × (sight.from < sight.to) × (sight.to ≤ length text.now) }
    requires begins { left text.now at ≡ shown text.now sort.Field sight.from sight.to }
    ensures moves { Moves text.now at n result }
    ensures reads { Parsed 1 text.now base at nodes.old nodes.new names.old names.new n m result }
{
    let node = Node {
        place: sight.from,
        form: Form::Field(span(base, sight.from, sight.to)),
    };
    put(nodes, n, m, node, sight.to, Size::leaf(true))
}

// A string, without its quotes.
pub fn string(
    text: &[u8],
    base: u16,
    at: u16,
    sight: Sight,
    nodes: &mut [Node],
    names: &mut [Span],
    n: u16,
    m: u8,
) -> Got
    requires few { n ≤ at }
    requires bounds { (at ≤ sight.from) × (sight.from < sight.to) × (sight.to ≤ length text.now) }
    requires quoted { sight.from + 2 ≤ sight.to }
    requires begins { left text.now at ≡ shown text.now sort.Str sight.from sight.to }
    ensures moves { Moves text.now at n result }
    ensures reads { Parsed 1 text.now base at nodes.old nodes.new names.old names.new n m result }
{
    let word = span(base, sight.from + 1, sight.to - 1);
    let node = Node {
        place: sight.from,
        form: Form::Str(word),
    };
    put(nodes, n, m, node, sight.to, Size::leaf(word.len <= STRING))
}

// Items parted by `;`. The names are read and written on a stack of its own, which has room for one more than is lent.
pub fn sequence(
    text: &[u8],
    base: u16,
    at: u16,
    nodes: &mut [Node],
    names: &mut [Span],
    n: u16,
    m: u8,
) -> Result<Got, Stuck>
    requires short { length text.now ≤ 4096 }
    requires inside { at ≤ length text.now }
    requires few { n ≤ at }
    ensures moves { IfOk result (λ g. Moves text.now at n g) }
    ensures reads { MatchResult result (λ g. Sequence text.now base at nodes.old nodes.new names.old names.new n m g) (λ s. Refused 4 text.now at s.0) }
{
    let lent = names.len().min(NAMES + 1);
    let mut spans = [Span::default(); NAMES + 1];
    spans[..lent].copy_from_slice(&names[..lent]);
    let mut known = Stack::resume(&mut spans, usize::from(m));
    let mut nodes = Table::resume(nodes, n);
    let text = Text { bytes: text, base };
    let read = text.sequence(at, &mut nodes, &mut known);
    let count = known.len();
    let kept = count.min(lent);
    names[..kept].copy_from_slice(&known.items()[..kept]);
    let got = read?;
    Ok(Got {
        to: got.to,
        nodes: nodes.count(),
        names: count.min(NAMES + 1) as u8,
        root: got.root,
        place: got.place,
        size: got.size,
    })
}
