// Rules: a text that is one expression.
ghost use Rattle.std.specs.Prelude.{◌≡◌, length, MatchResult};
ghost use Rattle.grammar.specs.Grammar.{Kind};
ghost use Rattle.syntax.specs.Whole.{RuleStands, RuleWithin, RuleJudged, RuleMeasured, TextRefused, RefusedWithin};
ghost use Rattle.syntax.specs.Ended.{TextStuck};

use crate::limits::{NAMES, within};
use crate::read::{Judged, Stuck};
use crate::source::Text;
use crate::table::Table;
use nodes::node::{Node, Rule};
use nodes::refusal::Refusal;
use stack::Stack;
use text::span::Span;

impl Text<'_> {
    // A sequence, up to the text's end.
    fn rule(self, nodes: &mut Table<'_, Node>) -> Result<Judged<Rule>, Stuck>
        requires none { nodes.old.count ≡ 0 }
        ensures reads { MatchResult result (λ g. RuleMeasured self.entry.bytes.now self.entry.base nodes.old nodes.new g) (λ s. TextStuck Kind.rule self.entry.bytes.now s.0) }
    {
        let mut spans = [Span::default(); NAMES + 1];
        let mut names = Stack::new(&mut spans);
        let got = self.sequence(0, nodes, &mut names)?;
        self.end(got.to)?;
        Ok(Judged {
            read: Rule {
                root: got.root,
                nodes: nodes.count(),
            },
            within: within(0, got.size, names.len()),
        })
    }
}

// The rule that the text is, with whether it is within the limits; or its refusal.
// (No one function with that of classes: they have a table of methods beside, and a closure over the tables would hide which table has what.)
fn judged(text: &[u8], base: u16, nodes: &mut [Node]) -> Result<Judged<Rule>, Refusal>
    ensures the_one_tree_or_the_refusal { MatchResult result (λ g. RuleJudged text.now base nodes.new g) (λ f. TextRefused Kind.rule text.now f) }
{
    let text = Text::new(text, base)?;
    let mut nodes = Table::new(nodes);
    let rule = text.rule(&mut nodes)?;
    Ok(rule)
}

// The rule that the text is, in a table of nodes whose names are spans of a memory that has the text at `base`; or its refusal. The limits are not asked.
pub fn parse_rule(text: &[u8], base: u16, nodes: &mut [Node]) -> Result<Rule, Refusal>
    ensures the_one_tree_or_the_refusal { MatchResult result (λ rule. RuleStands text.now base nodes.new rule) (λ f. TextRefused Kind.rule text.now f) }
{
    Ok(judged(text, base, nodes)?.read)
}

// The same, where a rule that is over the limits is refused.
pub fn judge_rule(text: &[u8], base: u16, nodes: &mut [Node]) -> Result<Rule, Refusal>
    ensures the_one_tree_within_the_limits_or_the_refusal { MatchResult result (λ rule. RuleWithin text.now base nodes.new rule) (λ f. RefusedWithin Kind.rule text.now f) }
{
    judged(text, base, nodes)?.accepted()
}
