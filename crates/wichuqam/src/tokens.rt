// The task `tokens`: a text's tokens, one a line, or the place of the first byte that no token has.
use crate::print_refused;
use lexer::check_text;
use lexer::token::Lexed;
use lexer::tokens::Tokens;
use std::io::{Read, Write};

// Place, kind, length, and the bytes as they stand in the text.
fn print_token(rt: &HostRuntime, lexed: Lexed<'_>, bytes: &[u8]) -> anyhow::Result<()> {
    print!(rt; "{}\t{}\t{}\t", lexed.from, lexed.token.kind(), bytes.len())?;
    let mut out = rt.stdout();
    out.write_all(bytes)?;
    out.write_all(b"\n")?;
    Ok(())
}

fn print_all(rt: &HostRuntime, text: &[u8]) -> anyhow::Result<()> {
    for lexed in Tokens::of(text) {
        let Ok(lexed) = lexed else { break };
        print_token(rt, lexed, &text[lexed.from..lexed.to])?;
    }
    Ok(())
}

pub fn list(rt: &HostRuntime) -> anyhow::Result<()> {
    let mut text = Vec::new(rt.alloc());
    let _ = rt.stdin().read_to_end(&mut text)?;
    match check_text(&text) {
        Ok(()) => print_all(rt, &text),
        Err(stray) => print_refused(rt, stray.into()),
    }
}
