//! How tokens are shown.

use anyhow::Result;
use nf_lexer::tokens;
use nf_token::{Keyword, Mark, PlainKind, TemplateKind, Token};
use std::alloc::Global;
use std::fmt::Write;

/// The tokens with their places, and the end's place; or the fault.
pub(crate) fn shown(alloc: Global, text: &str) -> Result<String> {
    let mut out = String::new(alloc);
    let list = match tokens(alloc, text.as_bytes()) {
        Ok(list) => list,
        Err(fault) => return Ok(format!(in alloc; "{fault}")?),
    };
    for lexeme in list.items() {
        write!(out, "{} ", lexeme.place)?;
        show_token(&mut out, &lexeme.token)?;
        out.push_str(", ")?;
    }
    write!(out, "end {}", list.end())?;
    Ok(out)
}

fn show_token(out: &mut String, token: &Token) -> Result<()> {
    match token {
        Token::Number(number) => write!(out, "{number}")?,
        Token::Plain(kind, text) => show_round(out, quotes(*kind), text.as_str(), quotes(*kind))?,
        Token::Pattern(text) => show_round(out, "~/", text.as_str(), "/")?,
        Token::OpenTemplate(kind) => show_round(out, "<", template_quotes(*kind), "")?,
        Token::TemplateText(text) => show_round(out, "text(", text.as_str(), ")")?,
        Token::CloseTemplate(kind) => show_round(out, "", template_quotes(*kind), ">")?,
        Token::Name(name) => out.push_str(name.as_str())?,
        token => out.push_str(fixed_text(token))?,
    }
    Ok(())
}

fn show_round(out: &mut String, before: &str, text: &str, after: &str) -> Result<()> {
    write!(out, "{before}{text}{after}")?;
    Ok(())
}

fn quotes(kind: PlainKind) -> &'static str {
    match kind {
        PlainKind::Single => "'",
        PlainKind::TripleSingle => "'''",
        PlainKind::Slashes => "/",
    }
}

fn template_quotes(kind: TemplateKind) -> &'static str {
    match kind {
        TemplateKind::Double => "\"",
        TemplateKind::TripleDouble => "\"\"\"",
    }
}

/// The text of a token that is always shown alike.
fn fixed_text(token: &Token) -> &'static str {
    match token {
        Token::Keyword(keyword) => keyword_text(*keyword),
        Token::Mark(mark) => mark_text(*mark),
        Token::OpenHole => "${",
        Token::CloseHole => "}$",
        _ => "SEP",
    }
}

fn keyword_text(keyword: Keyword) -> &'static str {
    match keyword {
        Keyword::Def => "def",
        Keyword::Else => "else",
        Keyword::False => "false",
        Keyword::If => "if",
        Keyword::In => "in",
        Keyword::Null => "null",
        Keyword::Return => "return",
        Keyword::True => "true",
    }
}

fn mark_text(mark: Mark) -> &'static str {
    match mark {
        Mark::OpenRound => "(",
        Mark::CloseRound => ")",
        Mark::OpenSquare => "[",
        Mark::CloseSquare => "]",
        Mark::OpenBrace => "{",
        Mark::CloseBrace => "}",
        Mark::Comma => ",",
        Mark::Colon => ":",
        Mark::Dot => ".",
        Mark::QuestionDot => "?.",
        Mark::DotDot => "..",
        Mark::Arrow => "->",
        Mark::Equals => "=",
        Mark::Plus => "+",
        Mark::Minus => "-",
        Mark::Times => "*",
        Mark::Percent => "%",
        Mark::Less => "<",
        Mark::AtMost => "<=",
        Mark::Greater => ">",
        Mark::AtLeast => ">=",
        Mark::Same => "==",
        Mark::Differs => "!=",
        Mark::Matches => "==~",
        Mark::And => "&&",
        Mark::Or => "||",
        Mark::Pipe => "|",
        Mark::Not => "!",
        Mark::Question => "?",
        Mark::Elvis => "?:",
    }
}
