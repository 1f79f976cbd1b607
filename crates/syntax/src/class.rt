// Classes: a text that defines a class with its methods.
ghost use Rattle.std.specs.Prelude.{◌≡◌, ◌+◌, ◌<◌, ◌≤◌, true, false, length, IfOk, Some, MatchResult, ◌≢◌};
ghost use Rattle.grammar.specs.Grammar.{Kind};
ghost use Rattle.lexer.specs.declared.token.Keyword.TheVariants as word;
ghost use Rattle.syntax.specs.declared.sight.Sort.TheVariants as sort;
ghost use Rattle.stack.specs.Held.{room};
ghost use Rattle.syntax.specs.Left.{terms};
ghost use Rattle.syntax.specs.Sight.{head_sort};
ghost use Rattle.syntax.specs.Classes.{ParametersRead, ParametersRefused, MethodMeasured, MethodRefused, MembersMeasured, MembersRefused, Adds};
ghost use Rattle.syntax.specs.Ended.{TextStuck};
ghost use Rattle.syntax.specs.Whole.{TextRefused, RefusedWithin, ClassStands, ClassWithin, ClassJudged, ClassMeasured};

use crate::limits::{NAMES, within};
use crate::names::own;
use crate::read::{Defined, Judged, Listed, Stuck};
use crate::sight::{Sight, Sort};
use crate::source::Text;
use crate::table::Table;
use lexer::token::{Keyword, Symbol};
use nodes::node::{Class, Method, Node, Parameters};
use nodes::refusal::Refusal;
use stack::Stack;
use text::span::Span;

impl Text<'_> {
    // One more parameter.
    fn add(self, names: &mut Stack<'_, Span>, listed: Listed, sight: Sight) -> Listed
        requires inside { sight.to ≤ length self.bytes.now }
        requires few { listed.parameters.count < sight.to }
        ensures one_more { Adds self.entry.bytes.now self.entry.base names.old names.new listed sight.from sight.to result }
    {
        self.learn(names, own(sight.from, sight.to));
        let name = self.span(sight.from, sight.to);
        Listed {
            to: sight.to,
            parameters: listed.parameters.with(name),
        }
    }

    // Behind a `(`: names parted by `,`, or none, and `)`.
    fn parameters(self, at: u16, names: &mut Stack<'_, Span>) -> Result<Listed, Stuck>
        ensures moves { IfOk result (λ g. (at < g.to) × (g.to ≤ length self.entry.bytes.now)) }
        ensures reads { MatchResult result (λ g. ParametersRead self.entry.bytes.now self.entry.base at names.old names.new g) (λ s. ParametersRefused self.entry.bytes.now at s.0) }
    {
        let none = Parameters::default();
        if let Some(to) = self.after(at, Sort::Sign(Symbol::CloseParen)) {
            return Ok(Listed {
                to,
                parameters: none,
            });
        }
        let first = self.name(at)?;
        let begun = Listed {
            to: at,
            parameters: none,
        };
        let mut listed = self.add(names, begun, first);
        while let Some(to) = self.after(listed.to, Sort::Sign(Symbol::Comma)) {
            let next = self.name(to)?;
            listed = self.add(names, listed, next);
        }
        let to = self.expect(listed.to, Sort::Sign(Symbol::CloseParen))?;
        Ok(Listed {
            to,
            parameters: listed.parameters,
        })
    }

    // Behind `def`: a method, up to its `end`.
    fn method(self, at: u16, nodes: &mut Table<'_, Node>) -> Result<Judged<Defined>, Stuck>
        requires few { nodes.old.count ≤ at }
        ensures moves { IfOk result (λ g. (at < g.read.to) × (g.read.to ≤ length self.entry.bytes.now) × (nodes.old.count < nodes.new.count) × (nodes.new.count ≤ g.read.to)) }
        ensures reads { MatchResult result (λ g. MethodMeasured self.entry.bytes.now self.entry.base at nodes.old nodes.new g) (λ s. MethodRefused self.entry.bytes.now at s.0) }
    {
        let mut spans = [Span::default(); NAMES + 1];
        let mut names = Stack::new(&mut spans);
        let called = self.name(at)?;
        let open = self.expect(called.to, Sort::Sign(Symbol::OpenParen))?;
        let listed = self.parameters(open, &mut names)?;
        let body = self.sequence(listed.to, nodes, &mut names)?;
        let to = self.expect(body.to, Sort::Word(Keyword::End))?;
        Ok(Judged {
            read: Defined {
                to,
                method: Method {
                    name: self.span(called.from, called.to),
                    parameters: listed.parameters,
                    root: body.root,
                },
            },
            within: within(listed.parameters.count, body.size, names.len()),
        })
    }

    // Behind `begin`: methods, as many as there are; where they end.
    fn members(
        self,
        at: u16,
        nodes: &mut Table<'_, Node>,
        methods: &mut Table<'_, Method>,
    ) -> Result<Judged<u16>, Stuck>
        requires inside { at ≤ length self.bytes.now }
        requires none { (nodes.old.count ≡ 0) × (methods.old.count ≡ 0) }
        ensures moves { IfOk result (λ g. (at ≤ g.read) × (g.read ≤ length self.entry.bytes.now)) }
        ensures reads { MatchResult result (λ g. MembersMeasured self.entry.bytes.now self.entry.base at nodes.old nodes.new methods.old methods.new g × (head_sort (terms self.entry.bytes.now g.read) ≢ Some (sort.Word word.Def))) (λ s. MembersRefused self.entry.bytes.now at s.0) }
    {
        let mut end = at;
        let mut within = true;
        while let Some(to) = self.after(end, Sort::Word(Keyword::Def)) {
            let defined = self.method(to, nodes)?;
            methods.push(defined.read.method);
            end = defined.read.to;
            within &= defined.within;
        }
        Ok(Judged { read: end, within })
    }

    // `class` name `<` parent `begin` methods `end`, up to the text's end.
    fn class(
        self,
        nodes: &mut Table<'_, Node>,
        methods: &mut Table<'_, Method>,
    ) -> Result<Judged<Class>, Stuck>
        requires none { (nodes.old.count ≡ 0) × (methods.old.count ≡ 0) }
        ensures reads { MatchResult result (λ g. ClassMeasured self.entry.bytes.now self.entry.base nodes.old nodes.new methods.old methods.new g) (λ s. TextStuck Kind.class self.entry.bytes.now s.0) }
    {
        let to = self.expect(0, Sort::Word(Keyword::Class))?;
        let called = self.name(to)?;
        let to = self.expect(called.to, Sort::Sign(Symbol::Less))?;
        let parent = self.name(to)?;
        let to = self.expect(parent.to, Sort::Word(Keyword::Begin))?;
        let all = self.members(to, nodes, methods)?;
        let to = self.expect(all.read, Sort::Word(Keyword::End))?;
        self.end(to)?;
        Ok(Judged {
            read: Class {
                name: self.span(called.from, called.to),
                parent: self.span(parent.from, parent.to),
                methods: methods.count(),
                nodes: nodes.count(),
            },
            within: all.within,
        })
    }
}

// The class that the text is, with whether it is within the limits; or its refusal.
fn judged(
    text: &[u8],
    base: u16,
    nodes: &mut [Node],
    methods: &mut [Method],
) -> Result<Judged<Class>, Refusal>
    ensures the_one_tree_or_the_refusal { MatchResult result (λ g. ClassJudged text.now base nodes.new methods.new g) (λ f. TextRefused Kind.class text.now f) }
{
    let text = Text::new(text, base)?;
    let mut nodes = Table::new(nodes);
    let mut methods = Table::new(methods);
    let class = text.class(&mut nodes, &mut methods)?;
    Ok(class)
}

// The class that the text is, in tables of nodes and methods whose names are spans of a memory that has the text at `base`; or its refusal. The limits are not asked.
pub fn parse_class(
    text: &[u8],
    base: u16,
    nodes: &mut [Node],
    methods: &mut [Method],
) -> Result<Class, Refusal>
    ensures the_one_tree_or_the_refusal { MatchResult result (λ class. ClassStands text.now base nodes.new methods.new class) (λ f. TextRefused Kind.class text.now f) }
{
    Ok(judged(text, base, nodes, methods)?.read)
}

// The same, where a class that is over the limits is refused.
pub fn judge_class(
    text: &[u8],
    base: u16,
    nodes: &mut [Node],
    methods: &mut [Method],
) -> Result<Class, Refusal>
    ensures the_one_tree_within_the_limits_or_the_refusal { MatchResult result (λ class. ClassWithin text.now base nodes.new methods.new class) (λ f. RefusedWithin Kind.class text.now f) }
{
    judged(text, base, nodes, methods)?.accepted()
}
