// What stands next in a text.
ghost use Rattle.std.specs.Prelude.{◌≡◌, ℕ, ◌+◌, ◌<◌, ◌≤◌, [], length, IfSome, IfOk, Some, MatchOption, MatchResult, ◌≢◌};
ghost use Rattle.grammar.specs.Notes.{first};
ghost use Rattle.syntax.specs.declared.sight.Sort.{Sort};
ghost use Rattle.syntax.specs.declared.sight.Sort.TheVariants.{Name, Str};
ghost use Rattle.syntax.specs.Left.{left, terms, places};
ghost use Rattle.lexer.specs.Token.{terminal};
ghost use Rattle.syntax.specs.Sight.{shown, sort_of, head_sort};
ghost use Rattle.syntax.specs.Parsing.{NoWrite, Writes};

use crate::read::{Stuck, Target, Variable};
use crate::source::Text;
use lexer::next_token;
use lexer::token::{Keyword, Symbol, Token};

#[derive(Clone, Copy, PartialEq, Eq)]
pub enum Sort {
    Name,
    Integer,
    Field,
    Str,
    Word(Keyword),
    Sign(Symbol),
}

// A token's sort, and its bytes, of which it has some: `from` up to `to`. A string has its two quotes.
#[derive(Clone, Copy)]
pub struct Sight {
    pub sort: Sort,
    pub from: u16,
    pub to: u16,
    ghost some: { from < to },
    ghost quoted: { sort ≡ Str → from + 2 ≤ to },
}

impl From<Token<'_>> for Sort {
    ghost from_gives = { λ token sort. sort ≡ sort_of (terminal token) };

    fn from(token: Token<'_>) -> Sort {
        match token {
            Token::Identifier(_) => Sort::Name,
            Token::Integer(_) => Sort::Integer,
            Token::Field(_) => Sort::Field,
            Token::Str(_) => Sort::Str,
            Token::Keyword(keyword) => Sort::Word(keyword),
            Token::Symbol(symbol) => Sort::Sign(symbol),
        }
    }
}

impl Text<'_> {
    // The next token from `at` on; none at the text's end.
    pub fn look(self, at: u16) -> Option<Sight>
        ensures shows { MatchOption result (left self.entry.bytes.now at ≡ []) (λ s. left self.entry.bytes.now at ≡ shown self.entry.bytes.now s.sort s.from s.to) }
        ensures inside { IfSome result (λ s. (at ≤ s.from) × (s.to ≤ length self.entry.bytes.now)) }
    {
        match next_token(self.bytes, at as usize) {
            Ok(Some(lexed)) => Some(Sight {
                sort: Sort::from(lexed.token),
                from: lexed.from as u16,
                to: lexed.to as u16,
            }),
            Ok(None) => None,
            Err(_) => None,
        }
    }

    // Where the next token ends, if it is of this sort.
    pub fn after(self, at: u16, wanted: Sort) -> Option<u16>
        ensures found { MatchOption result (head_sort (terms self.entry.bytes.now at) ≢ Some wanted) (λ to. (from : ℕ) × (left self.entry.bytes.now at ≡ shown self.entry.bytes.now wanted from to)) }
        ensures inside { IfSome result (λ to. (at < to) × (to ≤ length self.entry.bytes.now)) }
    {
        match self.look(at) {
            Some(sight) if sight.sort == wanted => Some(sight.to),
            _ => None,
        }
    }

    // The place of the next token; at the text's end its length.
    pub fn place(self, at: u16) -> u16
        ensures of_the_next { result ≡ first (length self.entry.bytes.now) (places self.entry.bytes.now at) }
    {
        match self.look(at) {
            Some(sight) => sight.from,
            None => self.bytes.len() as u16,
        }
    }

    // The token of this sort that has to come.
    pub fn next(self, at: u16, wanted: Sort) -> Result<Sight, Stuck>
        ensures found { MatchResult result (λ s. left self.entry.bytes.now at ≡ shown self.entry.bytes.now wanted s.from s.to) (λ s. (s.0 ≡ first (length self.entry.bytes.now) (places self.entry.bytes.now at)) × (head_sort (terms self.entry.bytes.now at) ≢ Some wanted)) }
        ensures inside { IfOk result (λ s. (at ≤ s.from) × (s.to ≤ length self.entry.bytes.now)) }
    {
        match self.look(at) {
            Some(sight) if sight.sort == wanted => Ok(sight),
            _ => Err(Stuck(self.place(at))),
        }
    }

    // Where it ends.
    pub fn expect(self, at: u16, wanted: Sort) -> Result<u16, Stuck>
        ensures found { MatchResult result (λ to. (from : ℕ) × (left self.entry.bytes.now at ≡ shown self.entry.bytes.now wanted from to)) (λ s. (s.0 ≡ first (length self.entry.bytes.now) (places self.entry.bytes.now at)) × (head_sort (terms self.entry.bytes.now at) ≢ Some wanted)) }
        ensures inside { IfOk result (λ to. (at < to) × (to ≤ length self.entry.bytes.now)) }
    {
        Ok(self.next(at, wanted)?.to)
    }

    // The name that has to come.
    pub fn name(self, at: u16) -> Result<Sight, Stuck>
        ensures found { MatchResult result (λ s. left self.entry.bytes.now at ≡ shown self.entry.bytes.now Name s.from s.to) (λ s. (s.0 ≡ first (length self.entry.bytes.now) (places self.entry.bytes.now at)) × (head_sort (terms self.entry.bytes.now at) ≢ Some Name)) }
        ensures inside { IfOk result (λ s. (at ≤ s.from) × (s.to ≤ length self.entry.bytes.now)) }
    {
        self.next(at, Sort::Name)
    }

    // The text's end, which has to come.
    pub fn end(self, at: u16) -> Result<(), Stuck>
        ensures found { MatchResult result (λ _. left self.entry.bytes.now at ≡ []) (λ s. (sort : Sort) × (to : ℕ) × (left self.entry.bytes.now at ≡ shown self.entry.bytes.now sort s.0 to)) }
    {
        match self.look(at) {
            None => Ok(()),
            Some(sight) => Err(Stuck(sight.from)),
        }
    }

    // A variable and `=` behind it, if they come next.
    pub fn target_ahead(self, at: u16) -> Option<Target>
        ensures found { MatchOption result (NoWrite (terms self.entry.bytes.now at)) (λ t. Writes self.entry.bytes.now at t) }
        ensures inside { IfSome result (λ t. (at ≤ t.from) × (t.from < t.to) × (t.to < t.value) × (t.value ≤ length self.entry.bytes.now)) }
    {
        let sight = self.look(at)?;
        let value = self.after(sight.to, Sort::Sign(Symbol::Equals))?;
        let variable = match sight.sort {
            Sort::Name => Variable::Local,
            Sort::Field => Variable::Field,
            _ => return None,
        };
        Some(Target {
            variable,
            from: sight.from,
            to: sight.to,
            value,
        })
    }
}
