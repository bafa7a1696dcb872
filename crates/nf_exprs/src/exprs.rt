//! Parses expressions by their operators: conditionals, then each band from the loosest on, then prefixes.

ghost use Rattle.std.specs.Prelude.{◌≡◌, ◌≤◌, ◌<◌, true, false, length, map, IfOk, []};
ghost use Rattle.nf_grammar.specs.Gram.{rule};
ghost use Rattle.nf_ast.specs.View.{view, prefixes, operands as operands_of, view_operand, conditional as conditional_of, view_branch};
ghost use Rattle.nf_exprs.specs.Level as level;
ghost use Rattle.nf_exprs.specs.Rules as row;
ghost use Rattle.nf_exprs.specs.Nested.{Nests, NextOperator, NextBranch, past_branch};
ghost use Rattle.nf_exprs.specs.Parses.{Parses};

use crate::band::Band;
use crate::expect::MOST_PARTS;
use crate::fault::Fault;
use crate::{peek, posts};
use nf_ast::{Branch, BranchOperator, Expr, InfixOperator, Operand, Prefix};
use nf_token::Lexeme;
use nf_value::{Mem, Place};
use std::alloc::Global;

/// An expression, inside so many brackets.
#[cycle(parser)]
pub fn expr(alloc: Global, depth: u32, tokens: &[Lexeme]) -> Result<(Expr, &[Lexeme]), Fault>
    ensures parses { Parses (λ x. view x.0) (λ x. x.1.now) (rule (level.Expr depth 0)) tokens.now result }
    ensures shorter { IfOk result (λ x. length x.1.now < length tokens.now) }
{
    let (first, mut rest) = operands(alloc, depth, Band::Or, tokens)?;
    let mut branches = Vec::new(alloc);
    let mut asked = Vec::new(alloc);
    let mut nested: u32 = 0;
    while let Some((place, operator, after)) = next_branch(rest, &asked) {
        if is_past(operator, nested) {
            return Err(Fault::TooDeep(rest.len()));
        }
        let next = nests(&mut asked, nested, operator)?;
        let (operand, after) = operands(alloc, depth, Band::Or, after)?;
        let branch = Branch::new(place, operator, operand);
        branches.push(branch)?;
        rest = after;
        nested = next;
    }
    if is_asked(&asked) {
        return Err(Fault::Unexpected(rest.len()));
    }
    let whole = with_branches(alloc, first, branches)?;
    Ok((whole, rest))
}

/// Whether a `:` is to come.
fn is_asked(asked: &Vec<u32>) -> bool
    ensures yes { result ≡ true → asked.now.items ≡ [] → ⊥ }
    ensures no { result ≡ false → asked.now.items ≡ [] }
{
    !asked.is_empty()
}

/// The operator of a conditional that comes next; a `:` only where one is to come.
fn next_branch<'a>(
    tokens: &'a [Lexeme],
    asked: &Vec<u32>,
) -> Option<(Place, BranchOperator, &'a [Lexeme])>
    ensures { NextBranch tokens.now asked.now.items result }
{
    peek::branch(tokens, is_asked(asked))
}

/// Whether one `?` or `?:` more, round which so many stand, passes the limit.
fn is_past(operator: BranchOperator, nested: u32) -> bool
    ensures { result ≡ past_branch operator nested }
{
    match operator {
        BranchOperator::Then | BranchOperator::Elvis => nested >= MOST_PARTS,
        BranchOperator::Else => false,
    }
}

/// How many `?` and `?:` stand round the operand after this operator, the operator itself among them. For each `?` whose `:` is still
/// to come, `asked` has how many stand round the operands on both sides of that `:`.
fn nests(asked: &mut Vec<u32>, nested: u32, operator: BranchOperator) -> Result<u32, Mem>
    requires { nested ≤ 256 }
    ensures { IfOk result (λ next. Nests operator asked.old.items nested asked.new.items next) }
{
    match operator {
        BranchOperator::Then => {
            asked.push(nested + 1)?;
            Ok(nested + 1)
        }
        BranchOperator::Elvis => Ok(nested + 1),
        BranchOperator::Else => Ok(asked.pop().unwrap_or(nested)),
    }
}

/// An operand with those after it.
fn with_branches(alloc: Global, first: Expr, branches: Vec<Branch>) -> Result<Expr, Mem>
    ensures { IfOk result (λ e. view e ≡ conditional_of [] (view first) (map view_branch branches.items)) }
{
    if branches.is_empty() {
        return Ok(first);
    }
    Expr::conditional(alloc, first, branches)
}

/// Operands of one band with the operators between them.
#[cycle(parser)]
pub fn operands(
    alloc: Global,
    depth: u32,
    band: Band,
    tokens: &[Lexeme],
) -> Result<(Expr, &[Lexeme]), Fault>
    ensures parses { Parses (λ x. view x.0) (λ x. x.1.now) (rule (level.Operands depth band)) tokens.now result }
    ensures shorter { IfOk result (λ x. length x.1.now < length tokens.now) }
{
    let (first, mut rest) = operand(alloc, depth, band, tokens)?;
    let mut others = Vec::new(alloc);
    let mut parts: u32 = 1;
    while let Some((place, operator, after)) = next_operator(rest, band, parts) {
        if parts >= MOST_PARTS {
            return Err(Fault::TooDeep(rest.len()));
        }
        let (right, after) = operand(alloc, depth, band, after)?;
        let other = Operand::new(place, operator, right);
        others.push(other)?;
        rest = after;
        parts += 1;
    }
    let whole = with_operands(alloc, first, others)?;
    Ok((whole, rest))
}

/// The operator of the band that comes next, unless the band takes one at most and has had it.
fn next_operator(
    tokens: &[Lexeme],
    band: Band,
    parts: u32,
) -> Option<(Place, InfixOperator, &[Lexeme])>
    ensures { NextOperator tokens.now band parts result }
{
    if parts > 1 && is_single(band) {
        return None;
    }
    peek::infix(tokens, band)
}

/// An operand with those after it.
fn with_operands(alloc: Global, first: Expr, others: Vec<Operand>) -> Result<Expr, Mem>
    ensures { IfOk result (λ e. view e ≡ operands_of (view first) (map view_operand others.items)) }
{
    if others.is_empty() {
        return Ok(first);
    }
    Expr::infix(alloc, first, others)
}

/// Whether the band has one operator at most.
fn is_single(band: Band) -> bool
    ensures { result ≡ row.is_single band }
{
    matches!(band, Band::Same | Band::Compare | Band::Range)
}

/// An operand of the band.
#[cycle(parser)]
fn operand(
    alloc: Global,
    depth: u32,
    band: Band,
    tokens: &[Lexeme],
) -> Result<(Expr, &[Lexeme]), Fault>
    ensures parses { Parses (λ x. view x.0) (λ x. x.1.now) (row.operand depth band) tokens.now result }
    ensures shorter { IfOk result (λ x. length x.1.now < length tokens.now) }
{
    match band {
        Band::Or => operands(alloc, depth, Band::And, tokens),
        Band::And => operands(alloc, depth, Band::Pipe, tokens),
        Band::Pipe => operands(alloc, depth, Band::Same, tokens),
        Band::Same => operands(alloc, depth, Band::Compare, tokens),
        Band::Compare => operands(alloc, depth, Band::Range, tokens),
        Band::Range => operands(alloc, depth, Band::Sum, tokens),
        Band::Sum => operands(alloc, depth, Band::Term, tokens),
        Band::Term => prefixed(alloc, depth, tokens),
    }
}

/// Operators before a postfix chain, and the chain.
#[cycle(parser)]
fn prefixed(alloc: Global, depth: u32, tokens: &[Lexeme]) -> Result<(Expr, &[Lexeme]), Fault>
    ensures parses { Parses (λ x. view x.0) (λ x. x.1.now) (rule (level.Pre depth 0)) tokens.now result }
    ensures shorter { IfOk result (λ x. length x.1.now < length tokens.now) }
{
    let mut operators = Vec::new(alloc);
    let mut rest = tokens;
    let mut parts: u32 = 0;
    while let Some((place, operator, after)) = peek::prefix(rest) {
        if parts >= MOST_PARTS {
            return Err(Fault::TooDeep(rest.len()));
        }
        operators.push(Prefix { place, operator })?;
        rest = after;
        parts += 1;
    }
    let (of, rest) = posts::post(alloc, depth, rest)?;
    let whole = with_prefixes(alloc, operators, of)?;
    Ok((whole, rest))
}

/// An operand with the operators before it.
fn with_prefixes(alloc: Global, operators: Vec<Prefix>, of: Expr) -> Result<Expr, Mem>
    ensures { IfOk result (λ e. view e ≡ prefixes operators.items (view of)) }
{
    if operators.is_empty() {
        return Ok(of);
    }
    Expr::prefix(alloc, operators, of)
}
