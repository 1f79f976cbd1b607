// The tokens of a text, one after another.
ghost use Rattle.std.specs.Prelude.{◌≡◌, ◌-◌, length};
ghost use Rattle.std.specs.Iterator.{at_most};
ghost use Rattle.lexer.specs.Lexing.{next, told, behind};
ghost use Rattle.lexer.specs.Law.{Inside};

use crate::next_token;
use crate::token::{Lexed, Stray};

// The tokens from a place of a text on. They end with the text, or with the first byte that no token has.
#[derive(Clone, Copy)]
pub struct Tokens<'a> {
    pub text: &'a [u8],
    pub at: usize,
}

impl<'a> Tokens<'a> {
    // All tokens of the text.
    pub fn of(text: &'a [u8]) -> Tokens<'a>
        ensures its_text { result.text.now ≡ text.now }
        ensures from_the_start { result.at ≡ 0 }
    {
        Tokens { text, at: 0 }
    }
}

impl<'a> Iterator for Tokens<'a> {
    type Item = Result<Lexed<'a>, Stray>;

    ghost next_gives = { λ s r t. (t.text.now ≡ s.text.now) × (told r ≡ next s.text.now s.at) × (t.at ≡ behind (length s.text.now) (told r)) × Inside (length s.text.now) s.at (told r) };

    ghost remaining = { λ s. at_most (length s.text.now - s.at) };

    fn next(&mut self) -> Option<Result<Lexed<'a>, Stray>> {
        let found = next_token(self.text, self.at).transpose();
        self.at = match found {
            Some(Ok(lexed)) => lexed.to,
            _ => self.text.len(),
        };
        found
    }
}
