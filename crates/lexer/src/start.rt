// The token that begins at a byte of a text.
#![tactic(auto, using(crate::proofs::Placing::cutting))]

ghost use Rattle.std.specs.Prelude.{◌≡◌, ◌+◌, ◌<◌, ◌≤◌, length, drop, take_while, is_some, Some, slice_index};
ghost use Rattle.lexer.specs.Byte.{goes_on};
ghost use Rattle.lexer.specs.Keyword.{keyword_of};
ghost use Rattle.lexer.specs.Token.{terminal};
ghost use Rattle.lexer.specs.Lexing.{worded, named, word_of, integer_of, minus_of, field_of, string_of, first, placed, lexed, begins};

use crate::byte::{ByteKind, Run};
use crate::keyword_of;
use crate::token::{Lexed, Stray, Token};

// How many bytes of `rest`, from the front on, the run has.
pub fn run_len(rest: &[u8], run: Run) -> usize
    ensures longest { result ≡ length (take_while (goes_on run) rest.now) }
    ensures within { result ≤ length rest.now }
{
    rest.iter().take_while(|b| run.goes_on(**b)).count()
}

// An identifier, unless a keyword is written so.
fn word_token<'a>(word: &'a [u8]) -> Token<'a>
    ensures no_keyword_is_an_identifier { terminal result ≡ worded word.now (keyword_of word.now) }
{
    match keyword_of(word) {
        Some(keyword) => Token::Keyword(keyword),
        None => Token::Identifier(word),
    }
}

// Can a run of identifier characters name a field?
fn is_name(word: &[u8]) -> bool
    ensures neither_empty_nor_keyword { result ≡ is_some (named word.now (keyword_of word.now)) }
{
    match keyword_of(word) {
        Some(_) => false,
        None => !word.is_empty(),
    }
}

// A byte of a text, where a token may begin.
#[derive(Clone, Copy)]
pub struct Start<'a> {
    pub text: &'a [u8],
    pub from: usize,
    ghost inside: { from < length text.now },
}

impl<'a> Start<'a> {
    // Where the run behind the first byte ends.
    fn run_end(self, run: Run) -> usize
        ensures longest { result ≡ self.entry.from + 1 + length (take_while (goes_on run) (drop (self.entry.from + 1) self.entry.text.now)) }
        ensures within { result ≤ length self.entry.text.now }
    {
        self.from + 1 + run_len(&self.text[self.from + 1..], run)
    }

    // The identifier or keyword that begins here. (A closure for the token would need a longer contract than `word` and `integer` have.)
    fn word(self) -> Lexed<'a>
        ensures longest_word { lexed result ≡ placed self.entry.from (Some (word_of (slice_index self.entry.text.now self.entry.from) (drop (self.entry.from + 1) self.entry.text.now))) }
    {
        let to = self.run_end(Run::Identifier);
        Lexed {
            token: word_token(&self.text[self.from..to]),
            from: self.from,
            to,
        }
    }

    // The integer that begins here, with a digit or with `-`.
    fn integer(self) -> Lexed<'a>
        ensures all_digits { lexed result ≡ placed self.entry.from (Some (integer_of (slice_index self.entry.text.now self.entry.from) (drop (self.entry.from + 1) self.entry.text.now))) }
    {
        let to = self.run_end(Run::Digits);
        Lexed {
            token: Token::Integer(&self.text[self.from..to]),
            from: self.from,
            to,
        }
    }

    // A `-` begins an integer exactly where a digit follows.
    fn minus(self) -> Lexed<'a>
        ensures integer_before_a_digit { lexed result ≡ placed self.entry.from (Some (minus_of (slice_index self.entry.text.now self.entry.from) (drop (self.entry.from + 1) self.entry.text.now))) }
    {
        let behind = self.text.get(self.from + 1).copied().unwrap_or(0);
        if Run::Digits.goes_on(behind) {
            self.integer()
        } else {
            self.word()
        }
    }

    // The field whose `@` stands here.
    fn field(self) -> Result<Lexed<'a>, Stray>
        requires at_sign { slice_index self.text.now self.from ≡ 64 }
        ensures an_identifier_behind { begins result ≡ placed self.entry.from (field_of (drop (self.entry.from + 1) self.entry.text.now)) }
    {
        let to = self.run_end(Run::Identifier);
        if is_name(&self.text[self.from + 1..to]) {
            Ok(Lexed {
                token: Token::Field(&self.text[self.from..to]),
                from: self.from,
                to,
            })
        } else {
            Err(Stray(self.from))
        }
    }

    // The string whose first quote stands here.
    fn string(self) -> Result<Lexed<'a>, Stray>
        ensures quote_to_quote { begins result ≡ placed self.entry.from (string_of (drop (self.entry.from + 1) self.entry.text.now)) }
    {
        let end = self.run_end(Run::Quoted);
        if end >= self.text.len() {
            return Err(Stray(self.from));
        }
        Ok(Lexed {
            token: Token::Str(&self.text[self.from + 1..end]),
            from: self.from,
            to: end + 1,
        })
    }

    // The token that begins here.
    pub fn token(self) -> Result<Lexed<'a>, Stray>
        ensures by_the_first_byte { begins result ≡ placed self.entry.from (first (drop self.entry.from self.entry.text.now)) }
    {
        match ByteKind::from(self.text[self.from]) {
            ByteKind::Identifying => Ok(self.word()),
            ByteKind::Minus => Ok(self.minus()),
            ByteKind::Digit => Ok(self.integer()),
            ByteKind::At => self.field(),
            ByteKind::Quote => self.string(),
            ByteKind::Sign(symbol) => Ok(Lexed {
                token: Token::Symbol(symbol),
                from: self.from,
                to: self.from + 1,
            }),
            ByteKind::Blank | ByteKind::Stray => Err(Stray(self.from)),
        }
    }
}
