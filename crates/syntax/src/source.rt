// A text that is read: short enough, and every byte but a blank belongs to a token.
ghost use Rattle.std.specs.Prelude.{◌≡◌, ◌+◌, ◌-◌, ◌%◌, ◌^◌, ◌<◌, ◌≤◌, length, IfOk, MatchResult};
ghost use Rattle.nodes.specs.declared.refusal.Refusal.TheVariants.{TooLong};
ghost use Rattle.nodes.specs.Trees.{span_of};
ghost use Rattle.syntax.specs.Left.{left};
ghost use Rattle.syntax.specs.Breaks.{Lexes, text_limit};
ghost use Rattle.syntax.specs.Whole.{Unlexed};

use crate::limits::TEXT;
use lexer::check_text;
use nodes::refusal::Refusal;
use text::span::{Space, Span};

// The bytes of a text, and where it begins in the memory that its names are spans of.
#[derive(Clone, Copy)]
pub struct Text<'t> {
    pub bytes: &'t [u8],
    pub base: u16,
    ghost short: { length bytes.now ≤ text_limit },
}

impl<'t> Text<'t> {
    // Any text that is short enough.
    pub fn short(bytes: &'t [u8], base: u16) -> Result<Text<'t>, Refusal>
        ensures by_its_length { MatchResult result (λ t. (t.bytes.now ≡ bytes.now) × (t.base ≡ base)) (λ f. (f ≡ TooLong) × (text_limit < length bytes.now)) }
    {
        if bytes.len() > TEXT {
            Err(Refusal::TooLong)
        } else {
            Ok(Text { bytes, base })
        }
    }

    // Does every byte but a blank belong to a token?
    pub fn check(self) -> Result<(), Refusal>
        ensures lexed { MatchResult result (λ _. Lexes self.entry.bytes.now (left self.entry.bytes.now 0)) (λ f. Unlexed self.entry.bytes.now f) }
    {
        match check_text(self.bytes) {
            Ok(()) => Ok(()),
            // no `From`: it would have to cut a place that no u16 holds, which no place in a short text is
            Err(stray) => Err(Refusal::Stray(stray.0 as u16)),
        }
    }

    // A text of tokens, short enough.
    pub fn new(bytes: &'t [u8], base: u16) -> Result<Text<'t>, Refusal>
        ensures lexed { MatchResult result (λ _. Lexes bytes.now (left bytes.now 0)) (λ f. Unlexed bytes.now f) }
        ensures same { IfOk result (λ t. (t.bytes.now ≡ bytes.now) × (t.base ≡ base)) }
    {
        let text = Text::short(bytes, base)?;
        text.check()?;
        Ok(text)
    }

    // The bytes `from` up to `to`, in the memory.
    pub fn span(self, from: u16, to: u16) -> Span
        requires { from ≤ to }
        ensures where_they_lie { result ≡ span_of self.entry.base from to }
    {
        Span {
            space: Space::Texts,
            start: self.base.wrapping_add(from),
            len: to - from,
        }
    }
}
