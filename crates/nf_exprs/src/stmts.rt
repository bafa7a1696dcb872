//! Parses statements.

ghost use Rattle.std.specs.Prelude.{◌≤◌, ◌<◌, length, map, IfOk};
ghost use Rattle.nf_grammar.specs.Gram.{rule};
ghost use Rattle.nf_ast.specs.Tree as tree;
ghost use Rattle.nf_ast.specs.View.{view_stmt, view_stmts, view_arm};
ghost use Rattle.nf_exprs.specs.Level as level;
ghost use Rattle.nf_exprs.specs.Rules as row;
ghost use Rattle.nf_exprs.specs.Parses.{Parses, ParsesToLabel, ParsesThen, arm_tree};

use crate::expect::MOST_PARTS;
use crate::fault::Fault;
use crate::{closures, expect, exprs, peek, prims};
use nf_ast::{Arm, Stmt};
use nf_token::{Keyword, Lexeme, Mark};
use std::alloc::Global;

/// Statements, each with its separator.
#[cycle(parser)]
pub fn body(alloc: Global, depth: u32, tokens: &[Lexeme]) -> Result<(Vec<Stmt>, &[Lexeme]), Fault>
    ensures parses { ParsesToLabel (λ x. view_stmts x.0.items) (λ x. x.1.now) (rule (level.Body depth)) tokens.now result }
    ensures shorter { IfOk result (λ x. length x.1.now ≤ length tokens.now) }
{
    let mut all = Vec::new(alloc);
    let mut rest = tokens;
    while peek::starts_stmt(rest) {
        let (next, after) = separated(alloc, depth, rest)?;
        all.push(next)?;
        rest = after;
    }
    Ok((all, rest))
}

/// Statements in curly brackets.
#[cycle(parser)]
pub fn block(alloc: Global, depth: u32, tokens: &[Lexeme]) -> Result<(Vec<Stmt>, &[Lexeme]), Fault>
    ensures parses { Parses (λ x. tree.statements (view_stmts x.0.items)) (λ x. x.1.now) (row.block depth) tokens.now result }
    ensures shorter { IfOk result (λ x. length x.1.now < length tokens.now) }
{
    let (_, rest) = expect::opens(tokens, depth, Mark::OpenBrace)?;
    let (all, rest) = body(alloc, depth + 1, rest)?;
    let rest = expect::closes_body(rest)?;
    Ok((all, rest))
}

/// A statement and its separator.
#[cycle(parser)]
fn separated(alloc: Global, depth: u32, tokens: &[Lexeme]) -> Result<(Stmt, &[Lexeme]), Fault>
    ensures parses { Parses (λ x. view_stmt x.0) (λ x. x.1.now) (row.with_sep (rule (level.Stmt depth))) tokens.now result }
    ensures shorter { IfOk result (λ x. length x.1.now < length tokens.now) }
{
    let (stmt, rest) = stmt(alloc, depth, tokens)?;
    let rest = expect::sep(rest)?;
    Ok((stmt, rest))
}

/// A statement without its separator.
#[cycle(parser)]
fn stmt(alloc: Global, depth: u32, tokens: &[Lexeme]) -> Result<(Stmt, &[Lexeme]), Fault>
    ensures parses { ParsesThen (λ x. view_stmt x.0) (λ x. x.1.now) row.sep (rule (level.Stmt depth)) tokens.now result }
    ensures shorter { IfOk result (λ x. length x.1.now < length tokens.now) }
{
    if peek::keyword(tokens, Keyword::Def).is_some() {
        return defined(alloc, depth, tokens);
    }
    if peek::keyword(tokens, Keyword::Return).is_some() {
        return returned(alloc, depth, tokens);
    }
    if peek::keyword(tokens, Keyword::If).is_some() {
        return choice(alloc, depth, tokens);
    }
    if peek::assigned(tokens).is_some() {
        return assigned(alloc, depth, tokens);
    }
    if peek::prints(tokens) {
        return printed(alloc, depth, tokens);
    }
    if peek::logs(tokens) {
        return logged(alloc, depth, tokens);
    }
    let (expr, rest) = exprs::expr(alloc, depth, tokens)?;
    let stmt = Stmt::expr(expr);
    Ok((stmt, rest))
}

/// `def name = e` or `def (a, b) = e`
#[cycle(parser)]
fn defined(alloc: Global, depth: u32, tokens: &[Lexeme]) -> Result<(Stmt, &[Lexeme]), Fault>
    ensures parses { Parses (λ x. view_stmt x.0) (λ x. x.1.now) (row.defines depth) tokens.now result }
    ensures shorter { IfOk result (λ x. length x.1.now < length tokens.now) }
{
    let (place, rest) = expect::keyword(tokens, Keyword::Def)?;
    if peek::mark(rest, Mark::OpenRound).is_some() {
        let (_, rest) = expect::opens(rest, depth, Mark::OpenRound)?;
        let (names, rest) = closures::names(alloc, rest)?;
        let (_, rest) = expect::mark(rest, Mark::CloseRound)?;
        let (_, rest) = expect::mark(rest, Mark::Equals)?;
        let (value, rest) = exprs::expr(alloc, depth, rest)?;
        let stmt = Stmt::define_all(place, names, value);
        return Ok((stmt, rest));
    }
    let (name_place, name, rest) = expect::name(rest)?;
    let (_, rest) = expect::mark(rest, Mark::Equals)?;
    let copy = name.copy()?;
    let (value, rest) = exprs::expr(alloc, depth, rest)?;
    let stmt = Stmt::define(place, name_place, copy, value);
    Ok((stmt, rest))
}

/// `name = e`
#[cycle(parser)]
pub fn assigned(alloc: Global, depth: u32, tokens: &[Lexeme]) -> Result<(Stmt, &[Lexeme]), Fault>
    ensures parses { Parses (λ x. view_stmt x.0) (λ x. x.1.now) (row.assigned depth) tokens.now result }
    ensures shorter { IfOk result (λ x. length x.1.now < length tokens.now) }
{
    let (place, name, rest) = expect::name(tokens)?;
    let (_, rest) = expect::mark(rest, Mark::Equals)?;
    let copy = name.copy()?;
    let (value, rest) = exprs::expr(alloc, depth, rest)?;
    let stmt = Stmt::assign(place, copy, value);
    Ok((stmt, rest))
}

/// `return e`
#[cycle(parser)]
fn returned(alloc: Global, depth: u32, tokens: &[Lexeme]) -> Result<(Stmt, &[Lexeme]), Fault>
    ensures parses { Parses (λ x. view_stmt x.0) (λ x. x.1.now) (row.returned depth) tokens.now result }
    ensures shorter { IfOk result (λ x. length x.1.now < length tokens.now) }
{
    let (place, rest) = expect::keyword(tokens, Keyword::Return)?;
    let (value, rest) = exprs::expr(alloc, depth, rest)?;
    let stmt = Stmt::returns(place, value);
    Ok((stmt, rest))
}

/// `println e`
#[cycle(parser)]
pub fn printed(alloc: Global, depth: u32, tokens: &[Lexeme]) -> Result<(Stmt, &[Lexeme]), Fault>
    ensures parses { Parses (λ x. view_stmt x.0) (λ x. x.1.now) (row.print depth) tokens.now result }
    ensures shorter { IfOk result (λ x. length x.1.now < length tokens.now) }
{
    let (place, rest) = expect::word(tokens, "println")?;
    let (value, rest) = exprs::expr(alloc, depth, rest)?;
    let stmt = Stmt::println(place, value);
    Ok((stmt, rest))
}

/// `log.name e`
#[cycle(parser)]
pub fn logged(alloc: Global, depth: u32, tokens: &[Lexeme]) -> Result<(Stmt, &[Lexeme]), Fault>
    ensures parses { Parses (λ x. view_stmt x.0) (λ x. x.1.now) (row.log depth) tokens.now result }
    ensures shorter { IfOk result (λ x. length x.1.now < length tokens.now) }
{
    let (place, rest) = expect::word(tokens, "log")?;
    let (_, rest) = expect::mark(rest, Mark::Dot)?;
    let (name_place, name, rest) = expect::name(rest)?;
    let copy = name.copy()?;
    let (value, rest) = exprs::expr(alloc, depth, rest)?;
    let stmt = Stmt::log(place, name_place, copy, value);
    Ok((stmt, rest))
}

/// The arms of an `if`, and the statements of the last `else`.
#[cycle(parser)]
fn choice(alloc: Global, depth: u32, tokens: &[Lexeme]) -> Result<(Stmt, &[Lexeme]), Fault>
    ensures parses { Parses (λ x. view_stmt x.0) (λ x. x.1.now) (rule (level.Choice depth 1)) tokens.now result }
    ensures shorter { IfOk result (λ x. length x.1.now < length tokens.now) }
{
    let mut arms = Vec::new(alloc);
    let (first, mut rest) = arm(alloc, depth, tokens)?;
    arms.push(first)?;
    let mut parts: u32 = 1;
    while let Some((_, after)) = peek::keyword(rest, Keyword::Else) {
        if parts >= MOST_PARTS {
            return Err(Fault::TooDeep(rest.len()));
        }
        if peek::keyword(after, Keyword::If).is_some() {
            let (next, after) = arm(alloc, depth, after)?;
            arms.push(next)?;
            rest = after;
            parts += 1;
        } else {
            let (last, after) = block(alloc, depth, after)?;
            let choice = Stmt::choice(arms, Some(last));
            return Ok((choice, after));
        }
    }
    let choice = Stmt::choice(arms, None);
    Ok((choice, rest))
}

/// `if`, a condition and statements.
#[cycle(parser)]
fn arm(alloc: Global, depth: u32, tokens: &[Lexeme]) -> Result<(Arm, &[Lexeme]), Fault>
    ensures parses { Parses (λ x. arm_tree (view_arm x.0)) (λ x. x.1.now) (row.arm depth) tokens.now result }
    ensures shorter { IfOk result (λ x. length x.1.now < length tokens.now) }
{
    let (place, rest) = expect::keyword(tokens, Keyword::If)?;
    let (condition, rest) = prims::round(alloc, depth, rest)?;
    let (body, rest) = block(alloc, depth, rest)?;
    let arm = Arm::new(place, condition, body);
    Ok((arm, rest))
}
