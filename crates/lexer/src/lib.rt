// Bytes to tokens that borrow from the text.
#![tactic(auto)]

ghost use Rattle.std.specs.Prelude.{◌≡◌, ◌↔◌, length, Some};
ghost use Rattle.lexer.specs.declared.token.Keyword.{Keyword};
ghost use Rattle.lexer.specs.Keyword.{word, keyword_of};
ghost use Rattle.lexer.specs.Tokens.{tokens, judged, refused};
ghost use Rattle.lexer.specs.Law.{Stands, Inside, Law};
ghost use Rattle.lexer.specs.Lexing.{answer, next};

pub mod byte;
mod start;
pub mod token;
pub mod tokens;

use byte::Run;
use start::{Start, run_len};
use token::{Keyword, Lexed, Stray};
use tokens::Tokens;

// The keyword that is written so, if there is one.
pub fn keyword_of(bytes: &[u8]) -> Option<Keyword>
    ensures whose_word_it_is { result ≡ keyword_of bytes.now }
    ensures by_its_letters { (k : Keyword) → (result ≡ Some k) ↔ (bytes.now ≡ word k) }
{
    for keyword in Keyword::ALL {
        if bytes == keyword.word() {
            return Some(keyword);
        }
    }
    None
}

// The next token from `at` on, behind blanks; none at the text's end.
pub fn next_token<'a>(text: &'a [u8], at: usize) -> Result<Option<Lexed<'a>>, Stray>
    ensures the_next { answer result ≡ next text.now at }
    ensures stands_behind_blanks { Stands text.now at (answer result) }
    ensures inside_the_text { Inside (length text.now) at (answer result) }
{
    if at >= text.len() {
        return Ok(None);
    }
    let from = at + run_len(&text[at..], Run::Blanks);
    if from >= text.len() {
        return Ok(None);
    }
    Ok(Some(Start { text, from }.token()?))
}

// Does every byte but a blank belong to a token? If not, where is the first that does not, or the quote that is never closed?
pub fn check_text(text: &[u8]) -> Result<(), Stray>
    ensures first_stray_byte { refused result ≡ judged (tokens text.now) }
    ensures tokens_and_blanks_are_the_text { Law }
{
    for lexed in Tokens::of(text) {
        lexed?;
    }
    Ok(())
}
