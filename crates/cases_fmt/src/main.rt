//! Prints scripts in their canonical text. Standard input has rows: the lines of a script, a line `==>`, the lines of its canonical
//! text, and a line `----`. The program prints each script, reads what it printed, and prints that; both have to be the canonical text.
#![tactic(auto)]

use anyhow::{Result, bail};
use nf_lexer::tokens;
use nf_parser::script;
use nf_printer::print;

fn main(rt: HostRuntime) -> Result<()> {
    run(&rt)
}

fn run<R: AllocGlobal + Input + Print>(rt: &R) -> Result<()> {
    let mut written = String::new(rt.alloc());
    let mut due = String::new(rt.alloc());
    let mut is_due = false;
    let mut row = 1u32;
    for line in rt.lines(rt.alloc()) {
        let line = line?;
        match line.as_str() {
            "==>" => is_due = true,
            "----" => {
                compare(rt, row, written.as_str(), due.as_str())?;
                written.clear();
                due.clear();
                is_due = false;
                row = row.saturating_add(1);
            }
            text if is_due => add_line(&mut due, text)?,
            text => add_line(&mut written, text)?,
        }
    }
    Ok(())
}

fn add_line(text: &mut String, line: &str) -> Result<()> {
    text.push_str(line)?;
    text.push_str("\n")?;
    Ok(())
}

/// Prints the script and what it prints, and says whether both are the canonical text.
fn compare<R: AllocGlobal + Print>(rt: &R, row: u32, written: &str, due: &str) -> Result<()> {
    let once = printed(rt, written)?;
    if once.as_slice() != due.as_bytes() {
        let text = String::from_utf8_lossy(rt.alloc(), once.as_slice())?;
        println!(rt; "row {row}: another text\n{text}")?;
        return Ok(());
    }
    let twice = printed(rt, due)?;
    if twice.as_slice() != due.as_bytes() {
        println!(rt; "row {row}: another text when it is printed again")?;
        return Ok(());
    }
    println!(rt; "row {row}: as due")?;
    Ok(())
}

/// The canonical text of a script.
fn printed<R: AllocGlobal>(rt: &R, text: &str) -> Result<Vec<u8>> {
    let tokens = match tokens(rt.alloc(), text.as_bytes()) {
        Ok(tokens) => tokens,
        Err(fault) => bail!("{fault}"),
    };
    let script = match script(rt.alloc(), &tokens) {
        Ok(script) => script,
        Err(_) => bail!("no script"),
    };
    match print(rt.alloc(), &script) {
        Ok(text) => Ok(text),
        Err(fault) => bail!("{fault}"),
    }
}
