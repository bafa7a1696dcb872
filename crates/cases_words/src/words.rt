//! Command lines.

use crate::shown::shown_pairs;
use anyhow::{Result, bail};
use nf_command::{Command, RunWords, read_words};
use nf_value::Txt;
use std::alloc::Global;

/// What is read of some words, each between `<` and `>`; or why nothing is.
pub(crate) fn words(alloc: Global, parts: &str) -> Result<String> {
    let words = split(alloc, parts)?;
    match read_words(alloc, &words) {
        Ok(command) => shown(alloc, &command),
        Err(fault) => Ok(format!(in alloc; "{fault}")?),
    }
}

fn split(alloc: Global, parts: &str) -> Result<Vec<String>> {
    let mut words = Vec::new(alloc);
    for part in parts.split('<').skip(1) {
        match part.split_once('>') {
            Some((word, _)) => words.push(String::from_str(alloc, word)?)?,
            None => bail!("{part}: a word with no end"),
        }
    }
    Ok(words)
}

fn shown(alloc: Global, command: &Command) -> Result<String> {
    match command {
        Command::Run(run) => shown_run(alloc, run),
        Command::Fmt { file } => Ok(format!(in alloc; "fmt {:?}", file.as_str())?),
        Command::Check { file } => Ok(format!(in alloc; "check {:?}", file.as_str())?),
        Command::Gen { n, start } => Ok(format!(in alloc; "gen {n} {start}")?),
    }
}

/// The file, and after it what isn't as it is without options.
fn shown_run(alloc: Global, run: &RunWords) -> Result<String> {
    let mut text = format!(in alloc; "run {:?}", run.file.as_str())?;
    if run.resume {
        text.push_str(" resume")?;
    }
    if run.work.as_str() != "work" {
        push_word(alloc, &mut text, "work", &run.work)?;
    }
    push_option(alloc, &mut text, "params-file", &run.params_file)?;
    push_option(alloc, &mut text, "trace", &run.trace)?;
    if run.queue != 4 {
        let queue = run.queue;
        text.push_str(format!(in alloc; " queue {queue}")?.as_str())?;
    }
    if run.params.len() != 0 {
        text.push_str(" ")?;
        text.push_str(shown_pairs(alloc, &run.params)?.as_str())?;
    }
    Ok(text)
}

fn push_option(alloc: Global, text: &mut String, name: &str, word: &Option<Txt>) -> Result<()> {
    match word {
        Some(word) => push_word(alloc, text, name, word),
        None => Ok(()),
    }
}

fn push_word(alloc: Global, text: &mut String, name: &str, word: &Txt) -> Result<()> {
    let word = word.as_str();
    text.push_str(format!(in alloc; " {name} {word:?}")?.as_str())?;
    Ok(())
}
