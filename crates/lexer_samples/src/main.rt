// Texts beside their tokens: a line for each text with its tokens, or the place where it is refused.
#![tactic(auto)]

use display::bytes::Shown;
use display::refused::Refused;
use lexer::check_text;
use lexer::tokens::Tokens;
use std::fmt;

const SAMPLES: [&'static [u8]; 64] = [
    // a `-` is a sign where it begins a token and a digit follows
    b"x-1",
    b"-7./(2)",
    b"--7",
    b"- 7",
    b"3.-(4)",
    b"7-1",
    b"nil-1",
    b"1.-1",
    b"-0",
    b"00012",
    b"-",
    b"-x1",
    b"4294967296000",
    // fields
    b"@x",
    b"@ x",
    b"@class",
    b"@classy",
    b"@iffy",
    b"@-1",
    b"@",
    b"@@x",
    b"a@b",
    b"@1",
    // stray bytes and open quotes: the leftmost counts
    b"a#",
    b") #",
    b"\"open",
    b"\"a\" \"#",
    b"x > 1",
    b"'x'",
    b"a\x0bb",
    b"a\x00",
    b"{",
    // strings hold every byte but the quote
    b"\"\"",
    b"\"\"\"\"",
    b"\"a\\n # @ 1\"",
    b"\"\xc3\xa9\xff\"",
    b"\xc3\xa9",
    b"a\xff",
    // blanks
    b"",
    b"   ",
    b" \t\r\n",
    b"\n x \t y ",
    // no blank is needed where tokens cannot run together
    b"if1then2else3end",
    b"x1",
    b"x == 1",
    b"class A<B begin end",
    b"x?y!",
    b"a.b(c,d);@e=f",
    b"_*/+!?",
    // keywords, and each with one more letter
    b"class begin end def if then else while do new instanceof self nil",
    b"classs",
    b"beginx",
    b"endx",
    b"defx",
    b"iff",
    b"thenx",
    b"elsex",
    b"whilex",
    b"dox",
    b"newx",
    b"instanceofx",
    b"selfx",
    b"nilx",
    b"Class IF nil?",
];

// A text, and its tokens or the place where it is refused.
#[derive(Clone, Copy)]
struct Sample<'a>(&'a [u8]);

impl fmt::Display for Sample<'_> {
    fn fmt<W: fmt::Write>(&self, f: &mut fmt::Formatter<W>) -> fmt::Result {
        let text = self.0;
        write!(f, "[{}]", Shown::visible(text))?;
        if let Err(stray) = check_text(text) {
            return write!(f, "  {}", Refused::from(stray));
        }
        for lexed in Tokens::of(text) {
            let Ok(lexed) = lexed else { break };
            let bytes = &text[lexed.from..lexed.to];
            write!(
                f,
                "  {}:{}:{}",
                lexed.from,
                lexed.token.kind(),
                Shown::visible(bytes)
            )?;
        }
        Ok(())
    }
}

fn main(rt: HostRuntime) -> anyhow::Result<()> {
    for text in SAMPLES {
        println!(rt; "{}", Sample(text))?;
    }
    Ok(())
}
