//! Times the lexer.

use crate::took;
use anyhow::Result;
use nf_lexer::LexFault;
use std::alloc::{AllocError, Global};
use std::rt::Clock;
use std::time::Instant;

/// Reads the tokens of a text that repeats these bytes.
pub(crate) fn lex<R: Clock + AllocGlobal + Print + Eprint>(
    rt: &R,
    bytes: &str,
    count: u32,
) -> Result<()> {
    let text = repeated(rt.alloc(), bytes, count)?;
    let start = Instant::now(rt)?;
    let read = nf_lexer::tokens(rt.alloc(), text.as_bytes());
    took(rt, start)?;
    match read {
        Ok(tokens) => print_count(rt, tokens.items().len()),
        Err(fault) => print_fault(rt, &fault),
    }
}

fn repeated(alloc: Global, bytes: &str, count: u32) -> Result<String, AllocError> {
    let mut text = String::new(alloc);
    for _ in 0..count {
        text.push_str(bytes)?;
    }
    Ok(text)
}

fn print_count<R: Print>(rt: &R, len: usize) -> Result<()> {
    println!(rt; "tokens {len}")?;
    Ok(())
}

fn print_fault<R: Print>(rt: &R, fault: &LexFault) -> Result<()> {
    println!(rt; "{fault}")?;
    Ok(())
}
