// Recursive descent over the tokens of a text: one function for each level and each form of several parts.
// (Nodes and names are lent apart: a class has one table of nodes, and names of its own for each body. Each function asks that the table has no more nodes than bytes were read, since no value holds both the table and the place.)
ghost use Rattle.std.specs.Prelude.{◌≡◌, ℕ, ◌+◌, ◌-◌, ◌%◌, ◌^◌, ◌<◌, ◌≤◌, length, IfOk, Some, MatchResult};
ghost use Rattle.text.specs.declared.span.Space.TheVariants.{Texts};
ghost use Rattle.lexer.specs.declared.token.Keyword.TheVariants as word;
ghost use Rattle.syntax.specs.declared.sight.Sort.TheVariants as sort;
ghost use Rattle.grammar.specs.Notes.{first};
ghost use Rattle.syntax.specs.Left.{left, terms, places};
ghost use Rattle.syntax.specs.Sight.{shown, head_sort};
ghost use Rattle.nodes.specs.Trees.{span_of};
ghost use Rattle.syntax.specs.Parsing.{Writes, NoWrite, written_form, Parsed, Refused, Operand, Tested, Item, Sequence, Argued, RefusedArgs, Lent, Moves, MovesArgs, With, Closed};

use crate::read::{Given, Got, Size, Stuck, Target, Variable};
use crate::sight::{Sight, Sort};
use crate::source::Text;
use crate::table::{Table, leaf, put};
use lexer::token::{Keyword, Symbol};
use nodes::node::{Form, Node};
use stack::Stack;
use text::span::Span;

// The form of a write.
pub fn written(text: Text<'_>, target: Target, root: u16) -> Form
    requires { target.from ≤ target.to }
    ensures by_its_target { result ≡ written_form target.variable (span_of text.entry.base target.from target.to) root }
{
    let name = text.span(target.from, target.to);
    match target.variable {
        Variable::Local => Form::SetLocal(name, root),
        Variable::Field => Form::SetField(name, root),
    }
}

impl Text<'_> {
    // Items parted by `;`.
    #[cycle(expressions)]
    pub fn sequence(
        self,
        at: u16,
        nodes: &mut Table<'_, Node>,
        names: &mut Stack<'_, Span>,
    ) -> Result<Got, Stuck>
        requires inside { at ≤ length self.bytes.now }
        requires few { nodes.old.count ≤ at }
        ensures moves { IfOk result (λ g. Moves self.entry.bytes.now at nodes.old nodes.new g) }
        ensures reads { MatchResult result (λ g. Sequence self.entry.bytes.now self.entry.base at nodes.old nodes.new names.old names.new g) (λ s. Refused 4 self.entry.bytes.now at s.0) }
        ensures lent { Lent nodes.old nodes.new names.old names.new }
    {
        let a = self.item(at, nodes, names)?;
        match self.after(a.to, Sort::Sign(Symbol::Semicolon)) {
            Some(to) => {
                let b = self.sequence(to, nodes, names)?;
                let node = Node {
                    place: a.place,
                    form: Form::Seq(a.root, b.root),
                };
                Ok(put(nodes, node, b.to, a.size.beside(b.size)))
            }
            None => Ok(a),
        }
    }

    // A write, or a test.
    #[cycle(expressions)]
    fn item(
        self,
        at: u16,
        nodes: &mut Table<'_, Node>,
        names: &mut Stack<'_, Span>,
    ) -> Result<Got, Stuck>
        requires inside { at ≤ length self.bytes.now }
        requires few { nodes.old.count ≤ at }
        ensures moves { IfOk result (λ g. Moves self.entry.bytes.now at nodes.old nodes.new g) }
        ensures reads { MatchResult result (λ g. Item self.entry.bytes.now self.entry.base at nodes.old nodes.new names.old names.new g) (λ s. Refused 3 self.entry.bytes.now at s.0) }
        ensures lent { Lent nodes.old nodes.new names.old names.new }
    {
        match self.target_ahead(at) {
            Some(target) => {
                self.learn_target(names, target);
                let e = self.item(target.value, nodes, names)?;
                let node = Node {
                    place: target.from,
                    form: written(self, target, e.root),
                };
                Ok(put(nodes, node, e.to, e.size.deeper()))
            }
            None => self.test(at, nodes, names),
        }
    }

    // An operand, and any number of tests of its class.
    #[cycle(expressions)]
    fn test(
        self,
        at: u16,
        nodes: &mut Table<'_, Node>,
        names: &mut Stack<'_, Span>,
    ) -> Result<Got, Stuck>
        requires inside { at ≤ length self.bytes.now }
        requires few { nodes.old.count ≤ at }
        ensures moves { IfOk result (λ g. Moves self.entry.bytes.now at nodes.old nodes.new g) }
        ensures reads { MatchResult result (λ g. Tested self.entry.bytes.now self.entry.base at nodes.old nodes.new names.old names.new g) (λ s. Refused 2 self.entry.bytes.now at s.0) }
        ensures lent { Lent nodes.old nodes.new names.old names.new }
    {
        let mut g = self.operand(at, nodes, names)?;
        while let Some(to) = self.after(g.to, Sort::Word(Keyword::InstanceOf)) {
            let class = self.name(to)?;
            let node = Node {
                place: g.place,
                form: Form::InstanceOf(g.root, self.span(class.from, class.to)),
            };
            g = put(nodes, node, class.to, g.size.deeper());
        }
        Ok(g)
    }

    // A primary, and any number of calls.
    #[cycle(expressions)]
    fn operand(
        self,
        at: u16,
        nodes: &mut Table<'_, Node>,
        names: &mut Stack<'_, Span>,
    ) -> Result<Got, Stuck>
        requires inside { at ≤ length self.bytes.now }
        requires few { nodes.old.count ≤ at }
        ensures moves { IfOk result (λ g. Moves self.entry.bytes.now at nodes.old nodes.new g) }
        ensures reads { MatchResult result (λ g. Operand self.entry.bytes.now self.entry.base at nodes.old nodes.new names.old names.new g) (λ s. Refused 1 self.entry.bytes.now at s.0) }
        ensures lent { Lent nodes.old nodes.new names.old names.new }
    {
        let mut g = self.primary(at, nodes, names)?;
        while let Some(to) = self.after(g.to, Sort::Sign(Symbol::Dot)) {
            let method = self.name(to)?;
            let open = self.expect(method.to, Sort::Sign(Symbol::OpenParen))?;
            let given = self.arguments(open, nodes, names)?;
            let node = Node {
                place: g.place,
                form: Form::Invoke(g.root, self.span(method.from, method.to), given.arguments),
            };
            g = put(nodes, node, given.to, g.size.beside(given.size).deeper());
        }
        Ok(g)
    }

    // What begins with a token of its own.
    #[cycle(expressions)]
    fn primary(
        self,
        at: u16,
        nodes: &mut Table<'_, Node>,
        names: &mut Stack<'_, Span>,
    ) -> Result<Got, Stuck>
        requires inside { at ≤ length self.bytes.now }
        requires few { nodes.old.count ≤ at }
        ensures moves { IfOk result (λ g. Moves self.entry.bytes.now at nodes.old nodes.new g) }
        ensures reads { MatchResult result (λ g. Parsed 1 self.entry.bytes.now self.entry.base at nodes.old nodes.new names.old names.new g) (λ s. Refused 1 self.entry.bytes.now at s.0) }
        ensures lent { Lent nodes.old nodes.new names.old names.new }
    {
        let Some(sight) = self.look(at) else {
            return Err(Stuck(self.bytes.len() as u16));
        };
        match sight.sort {
            Sort::Name => Ok(self.local(sight, nodes, names)),
            Sort::Integer => Ok(self.integer(sight, nodes)),
            Sort::Field => Ok(self.field(sight, nodes)),
            Sort::Str => Ok(self.string(sight, nodes)),
            Sort::Word(keyword) => self.keyed(sight, keyword, nodes, names),
            Sort::Sign(_) => Err(Stuck(sight.from)),
        }
    }

    // What begins with a keyword.
    #[cycle(expressions)]
    fn keyed(
        self,
        sight: Sight,
        keyword: Keyword,
        nodes: &mut Table<'_, Node>,
        names: &mut Stack<'_, Span>,
    ) -> Result<Got, Stuck>
        requires few { nodes.old.count ≤ sight.from }
        requires inside { sight.to ≤ length self.bytes.now }
        ensures moves { IfOk result (λ g. Moves self.entry.bytes.now sight.from nodes.old nodes.new g) }
        ensures reads { (p : ℕ) → left self.entry.bytes.now p ≡ shown self.entry.bytes.now (sort.Word keyword) sight.from sight.to → MatchResult result (λ g. Parsed 1 self.entry.bytes.now self.entry.base p nodes.old nodes.new names.old names.new g) (λ s. Refused 1 self.entry.bytes.now p s.0) }
        ensures lent { Lent nodes.old nodes.new names.old names.new }
    {
        match keyword {
            Keyword::If => self.conditional(sight, nodes, names),
            Keyword::While => self.repetition(sight, nodes, names),
            Keyword::New => self.creation(sight, nodes, names),
            Keyword::Nil => Ok(leaf(nodes, sight, Form::Nil)),
            Keyword::SelfWord => Ok(leaf(nodes, sight, Form::SelfWord)),
            _ => Err(Stuck(sight.from)),
        }
    }

    // `if` condition `then` consequent `else` alternative `end`.
    #[cycle(expressions)]
    fn conditional(
        self,
        sight: Sight,
        nodes: &mut Table<'_, Node>,
        names: &mut Stack<'_, Span>,
    ) -> Result<Got, Stuck>
        requires few { nodes.old.count ≤ sight.from }
        requires inside { sight.to ≤ length self.bytes.now }
        ensures moves { IfOk result (λ g. Moves self.entry.bytes.now sight.from nodes.old nodes.new g) }
        ensures reads { (p : ℕ) → left self.entry.bytes.now p ≡ shown self.entry.bytes.now (sort.Word word.If) sight.from sight.to → MatchResult result (λ g. Parsed 1 self.entry.bytes.now self.entry.base p nodes.old nodes.new names.old names.new g) (λ s. Refused 1 self.entry.bytes.now p s.0) }
        ensures lent { Lent nodes.old nodes.new names.old names.new }
    {
        let a = self.sequence(sight.to, nodes, names)?;
        let to = self.expect(a.to, Sort::Word(Keyword::Then))?;
        let b = self.sequence(to, nodes, names)?;
        let to = self.expect(b.to, Sort::Word(Keyword::Else))?;
        let c = self.sequence(to, nodes, names)?;
        let to = self.expect(c.to, Sort::Word(Keyword::End))?;
        let node = Node {
            place: sight.from,
            form: Form::If(a.root, b.root, c.root),
        };
        Ok(put(
            nodes,
            node,
            to,
            a.size.beside(b.size.beside(c.size)).deeper(),
        ))
    }

    // `while` guard `do` body `end`.
    #[cycle(expressions)]
    fn repetition(
        self,
        sight: Sight,
        nodes: &mut Table<'_, Node>,
        names: &mut Stack<'_, Span>,
    ) -> Result<Got, Stuck>
        requires few { nodes.old.count ≤ sight.from }
        requires inside { sight.to ≤ length self.bytes.now }
        ensures moves { IfOk result (λ g. Moves self.entry.bytes.now sight.from nodes.old nodes.new g) }
        ensures reads { (p : ℕ) → left self.entry.bytes.now p ≡ shown self.entry.bytes.now (sort.Word word.While) sight.from sight.to → MatchResult result (λ g. Parsed 1 self.entry.bytes.now self.entry.base p nodes.old nodes.new names.old names.new g) (λ s. Refused 1 self.entry.bytes.now p s.0) }
        ensures lent { Lent nodes.old nodes.new names.old names.new }
    {
        let a = self.sequence(sight.to, nodes, names)?;
        let to = self.expect(a.to, Sort::Word(Keyword::Do))?;
        let b = self.sequence(to, nodes, names)?;
        let to = self.expect(b.to, Sort::Word(Keyword::End))?;
        let node = Node {
            place: sight.from,
            form: Form::While(a.root, b.root),
        };
        Ok(put(nodes, node, to, a.size.beside(b.size).deeper()))
    }

    // `new` class `(` arguments `)`.
    #[cycle(expressions)]
    fn creation(
        self,
        sight: Sight,
        nodes: &mut Table<'_, Node>,
        names: &mut Stack<'_, Span>,
    ) -> Result<Got, Stuck>
        requires few { nodes.old.count ≤ sight.from }
        requires inside { sight.to ≤ length self.bytes.now }
        ensures moves { IfOk result (λ g. Moves self.entry.bytes.now sight.from nodes.old nodes.new g) }
        ensures reads { (p : ℕ) → left self.entry.bytes.now p ≡ shown self.entry.bytes.now (sort.Word word.New) sight.from sight.to → MatchResult result (λ g. Parsed 1 self.entry.bytes.now self.entry.base p nodes.old nodes.new names.old names.new g) (λ s. Refused 1 self.entry.bytes.now p s.0) }
        ensures lent { Lent nodes.old nodes.new names.old names.new }
    {
        let class = self.name(sight.to)?;
        let open = self.expect(class.to, Sort::Sign(Symbol::OpenParen))?;
        let given = self.arguments(open, nodes, names)?;
        let node = Node {
            place: sight.from,
            form: Form::New(self.span(class.from, class.to), given.arguments),
        };
        Ok(put(nodes, node, given.to, given.size.deeper()))
    }

    // Behind a `(`: sequences parted by `,`, or none, and `)`.
    #[cycle(expressions)]
    fn arguments(
        self,
        at: u16,
        nodes: &mut Table<'_, Node>,
        names: &mut Stack<'_, Span>,
    ) -> Result<Given, Stuck>
        requires inside { at ≤ length self.bytes.now }
        requires few { nodes.old.count ≤ at }
        ensures moves { IfOk result (λ g. MovesArgs self.entry.bytes.now at nodes.old nodes.new g) }
        ensures reads { MatchResult result (λ g. Argued self.entry.bytes.now self.entry.base at nodes.old nodes.new names.old names.new g) (λ s. RefusedArgs self.entry.bytes.now at s.0) }
        ensures lent { Lent nodes.old nodes.new names.old names.new }
    {
        let none = Given::none(at);
        if let Some(to) = self.after(at, Sort::Sign(Symbol::CloseParen)) {
            return Ok(none.closed(to));
        }
        let e = self.sequence(at, nodes, names)?;
        let mut given = none.with(e);
        while let Some(to) = self.after(given.to, Sort::Sign(Symbol::Comma)) {
            let e = self.sequence(to, nodes, names)?;
            given = given.with(e);
        }
        let to = self.expect(given.to, Sort::Sign(Symbol::CloseParen))?;
        Ok(given.closed(to))
    }
}
