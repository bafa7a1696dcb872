//! Parses processes.

ghost use Rattle.std.specs.Prelude.{◌≡◌, ◌<◌, ◌≤◌, length, map, codes, IfOk, MatchOption};
ghost use Rattle.nf_value.specs.declared.place.Place as place;
ghost use Rattle.nf_grammar.specs.Gram.{rule};
ghost use Rattle.nf_ast.specs.Tree as tree;
ghost use Rattle.nf_ast.specs.Tree.{Tree};
ghost use Rattle.nf_ast.specs.View.{view, trees, view_arg};
ghost use Rattle.nf_ast.specs.Tops.{maybe, view_top, view_directive, view_inputs, view_outputs, view_task, view_section};
ghost use Rattle.nf_exprs.specs.Level as level;
ghost use Rattle.nf_exprs.specs.Tokens as kind;
ghost use Rattle.nf_exprs.specs.Rules as row;
ghost use Rattle.nf_exprs.specs.Parses.{Parses, ParsesToLabel};
ghost use Rattle.nf_parser.specs.Ends.{ParsesAs, section_next, task_left, IsStrayAfter, NoStrayAfter};

use crate::{inputs, outputs, sections};
use nf_ast::{Arg, Directive, Expr, Inputs, Outputs, Process, Section, Task, Top};
use nf_exprs::{Fault, expect, peek, posts, prims};
use nf_token::{Lexeme, Mark};
use std::alloc::Global;

/// What stands in a process after its directives.
#[derive(Drop)]
struct Contents {
    inputs: Option<Inputs>,
    outputs: Option<Outputs>,
    task: Task,
    stub: Option<Section>,
}

/// A process.
pub fn process(alloc: Global, tokens: &[Lexeme]) -> Result<(Top, &[Lexeme]), Fault>
    ensures parses { Parses (λ x. view_top x.0) (λ x. x.1.now) (rule level.Process) tokens.now result }
    ensures shorter { IfOk result (λ x. length x.1.now < length tokens.now) }
{
    let (place, rest) = expect::word(tokens, "process")?;
    let (name_place, name, rest) = expect::name(rest)?;
    let (_, rest) = expect::opens(rest, 0, Mark::OpenBrace)?;
    let (directives, rest) = directives(alloc, rest)?;
    if let Some(left) = sections::stray_label(rest, begins_section(rest)) {
        return Err(Fault::Unexpected(left));
    }
    let (contents, rest) = after_directives(alloc, rest)?;
    let name = name.copy()?;
    let process = Process {
        place,
        name_place,
        name,
        directives,
        inputs: contents.inputs,
        outputs: contents.outputs,
        task: contents.task,
        stub: contents.stub,
    };
    Ok((Top::Process(process), rest))
}

/// The directives, each with its separator.
fn directives(alloc: Global, tokens: &[Lexeme]) -> Result<(Vec<Directive>, &[Lexeme]), Fault>
    ensures parses { ParsesToLabel (λ x. trees (map view_directive x.0.items)) (λ x. x.1.now) row.directives tokens.now result }
    ensures shorter { IfOk result (λ x. length x.1.now ≤ length tokens.now) }
{
    let mut all = Vec::new(alloc);
    let mut rest = tokens;
    while sections::starts_name(rest) {
        let (directive, after) = directive(alloc, rest)?;
        all.push(directive)?;
        rest = after;
    }
    Ok((all, rest))
}

/// A directive and its separator.
fn directive(alloc: Global, tokens: &[Lexeme]) -> Result<(Directive, &[Lexeme]), Fault>
    ensures parses { Parses (λ x. view_directive x.0) (λ x. x.1.now) (row.with_sep (rule level.Directive)) tokens.now result }
    ensures shorter { IfOk result (λ x. length x.1.now < length tokens.now) }
{
    let (place, name, rest) = expect::name(tokens)?;
    let (args, rest) = directive_args(alloc, rest)?;
    let rest = expect::sep(rest)?;
    let name = name.copy()?;
    Ok((Directive { place, name, args }, rest))
}

/// The arguments of a directive, with round brackets or without. A `(` directly after the name opens the brackets.
fn directive_args(alloc: Global, tokens: &[Lexeme]) -> Result<(Vec<Arg>, &[Lexeme]), Fault>
    ensures parses { Parses (λ x. trees (map view_arg x.0.items)) (λ x. x.1.now) row.directive_args tokens.now result }
    ensures shorter { IfOk result (λ x. length x.1.now ≤ length tokens.now) }
{
    if peek::mark(tokens, Mark::OpenRound).is_some() {
        let (_, rest) = expect::opens(tokens, 1, Mark::OpenRound)?;
        let (args, rest) = posts::maybe_args(alloc, 2, rest)?;
        let (_, rest) = expect::mark(rest, Mark::CloseRound)?;
        return Ok((args, rest));
    }
    posts::maybe_args(alloc, 1, tokens)
}

/// Whether a section of a process comes next.
fn begins_section(tokens: &[Lexeme]) -> bool
    ensures { result ≡ section_next tokens.now }
{
    peek::word(tokens, "input").is_some()
        || peek::word(tokens, "output").is_some()
        || peek::word(tokens, "script").is_some()
}

/// What stands after the directives.
fn after_directives(alloc: Global, tokens: &[Lexeme]) -> Result<(Contents, &[Lexeme]), Fault>
    ensures parses { (p : place.Place) → (n ds : Tree) → Parses (λ x. tree.process p n ds (maybe view_inputs x.0.inputs) (maybe view_outputs x.0.outputs) (view_task x.0.task) (maybe view_section x.0.stub)) (λ x. x.1.now) (row.sections p n ds) tokens.now result }
    ensures shorter { IfOk result (λ x. length x.1.now < length tokens.now) }
{
    let (first, rest) = maybe_inputs(alloc, tokens)?;
    let (outputs, rest) = maybe_outputs(alloc, rest)?;
    let (inputs, rest) = second_inputs(alloc, first, rest)?;
    let (task, stub, rest) = task_end(alloc, rest)?;
    let contents = Contents {
        inputs,
        outputs,
        task,
        stub,
    };
    Ok((contents, rest))
}

fn maybe_inputs(alloc: Global, tokens: &[Lexeme]) -> Result<(Option<Inputs>, &[Lexeme]), Fault>
    ensures parses { Parses (λ x. maybe view_inputs x.0) (λ x. x.1.now) (row.maybe_section (codes "input") (rule level.Inputs)) tokens.now result }
    ensures shorter { IfOk result (λ x. length x.1.now ≤ length tokens.now) }
{
    if peek::word(tokens, "input").is_none() {
        return Ok((None, tokens));
    }
    let (inputs, rest) = inputs::section(alloc, tokens)?;
    Ok((Some(inputs), rest))
}

fn maybe_outputs(alloc: Global, tokens: &[Lexeme]) -> Result<(Option<Outputs>, &[Lexeme]), Fault>
    ensures parses { Parses (λ x. maybe view_outputs x.0) (λ x. x.1.now) (row.maybe_section (codes "output") (rule level.Outputs)) tokens.now result }
    ensures shorter { IfOk result (λ x. length x.1.now ≤ length tokens.now) }
{
    if peek::word(tokens, "output").is_none() {
        return Ok((None, tokens));
    }
    let (outputs, rest) = outputs::section(alloc, tokens)?;
    Ok((Some(outputs), rest))
}

/// The inputs after the outputs, where none stood before them.
fn second_inputs(
    alloc: Global,
    first: Option<Inputs>,
    tokens: &[Lexeme],
) -> Result<(Option<Inputs>, &[Lexeme]), Fault>
    ensures parses { Parses (λ x. maybe view_inputs x.0) (λ x. x.1.now) (row.second_inputs (maybe view_inputs first)) tokens.now result }
    ensures shorter { IfOk result (λ x. length x.1.now ≤ length tokens.now) }
{
    match first {
        Some(inputs) => Ok((Some(inputs), tokens)),
        None => maybe_inputs(alloc, tokens),
    }
}

/// What a task runs, the stub and the `}`.
fn task_end(alloc: Global, tokens: &[Lexeme]) -> Result<(Task, Option<Section>, &[Lexeme]), Fault>
    ensures parses { (f : Tree → Tree → Tree) → Parses (λ x. f (view_task x.0) (maybe view_section x.1)) (λ x. x.2.now) (row.task_end f) tokens.now result }
    ensures shorter { IfOk result (λ x. length x.2.now < length tokens.now) }
{
    let (task, rest) = task(alloc, tokens)?;
    if let Some(left) = stray_after(&task, rest) {
        return Err(Fault::Unexpected(left));
    }
    let (stub, rest) = stub_end(alloc, rest)?;
    Ok((task, stub, rest))
}

/// What a task runs.
fn task(alloc: Global, tokens: &[Lexeme]) -> Result<(Task, &[Lexeme]), Fault>
    ensures parses { ParsesAs (λ x. view_task x.0) (λ x. x.1.now) (λ x. task_left x.0 x.1.now) (rule level.Task) tokens.now result }
    ensures shorter { IfOk result (λ x. length x.1.now < length tokens.now) }
{
    if peek::word(tokens, "script").is_some() {
        let (section, rest) = sections::section(alloc, tokens, "script")?;
        return Ok((Task::Script(section), rest));
    }
    let (text, rest) = string(alloc, tokens)?;
    let rest = expect::sep(rest)?;
    Ok((Task::Text(text), rest))
}

/// A plain string or a template.
fn string(alloc: Global, tokens: &[Lexeme]) -> Result<(Expr, &[Lexeme]), Fault>
    ensures parses { Parses (λ x. view x.0) (λ x. x.1.now) (row.string 1) tokens.now result }
    ensures shorter { IfOk result (λ x. length x.1.now < length tokens.now) }
{
    if let Some((place, kind, text, rest)) = peek::plain(tokens) {
        let text = text.copy()?;
        return Ok((Expr::text(place, kind, text), rest));
    }
    prims::template(alloc, 1, tokens)
}

/// Where a label comes next after a task's statements, and it isn't `stub:`: the number of tokens from its colon on.
fn stray_after(task: &Task, tokens: &[Lexeme]) -> Option<usize>
    ensures { MatchOption result (NoStrayAfter task.now tokens.now) (λ n. IsStrayAfter task.now tokens.now n) }
{
    match task {
        Task::Script(_) => sections::stray_label(tokens, peek::word(tokens, "stub").is_some()),
        Task::Text(_) => None,
    }
}

/// The stub, if there is one, and the `}`.
fn stub_end(alloc: Global, tokens: &[Lexeme]) -> Result<(Option<Section>, &[Lexeme]), Fault>
    ensures parses { Parses (λ x. maybe view_section x.0) (λ x. x.1.now) row.stub_end tokens.now result }
    ensures shorter { IfOk result (λ x. length x.1.now < length tokens.now) }
{
    if peek::word(tokens, "stub").is_none() {
        let rest = expect::closes(tokens)?;
        return Ok((None, rest));
    }
    let (stub, rest) = sections::section(alloc, tokens, "stub")?;
    let rest = expect::closes_body(rest)?;
    Ok((Some(stub), rest))
}
