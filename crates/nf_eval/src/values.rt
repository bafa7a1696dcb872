//! The value of an expression by its kind.

ghost use Rattle.std.specs.Prelude.{map, IfOk, OnOk, ◌≡◌, ◌++◌, ℕ, List};
ghost use Rattle.nf_value.specs.View.{plain_of};
ghost use Rattle.nf_ast.specs.View.{view, views, view_pair, view_piece, trees, key_tree};
ghost use Rattle.nf_infix.specs.Template.{IsWritten, hole_text};
ghost use Rattle.nf_placed.specs.Placed.{Evaluates};
ghost use Rattle.nf_placed.specs.Body.{Binds, key_text};
ghost use Rattle.nf_eval.specs.Evaluation.{meaning_of, eval_of};
ghost use Rattle.nf_eval.specs.Memory.{seen};
ghost use Rattle.nf_eval.specs.Gives.{Gathers, Writes};
ghost use Rattle.nf_eval.specs.Chains.{prefixed as prefixed_of};

use crate::around::{Around, in_process, value_seen};
use crate::reading::read;
use crate::shapes::closure_next;
use nf_ast::{Expr, Fragment, Key, Pair, Prefix};
use nf_builtins::Natives;
use nf_infix::{Gathered, Written};
use nf_placed::{fault_at, gathered_value, map_value, prefix_value, text_value};
use nf_value::{EvalKind, EvalRefusal, Mem, Txt, Value};
use std::alloc::Global;

/// The value of an expression.
#[cycle(value)]
pub(crate) fn value<N: Natives>(
    alloc: Global,
    expr: &Expr,
    around: &Around<'_>,
    natives: &N,
) -> Result<Value, EvalRefusal>
    requires { N.keeps natives.now }
    ensures { Evaluates (eval_of (view expr.now) (seen around.now (N.titles natives.now) (N.answer natives.now))) result }
{
    match expr {
        Expr::Number(_, number) => Ok(Value::Int(*number)),
        Expr::Text(_, _, text) => Ok(Value::Text(text.copy()?)),
        Expr::Pattern(place, _) => Err(fault_at(*place, EvalKind::WrongKind)),
        Expr::Template(place, _, pieces) => {
            let written = text(alloc, pieces, around, natives)?;
            text_value(*place, written)
        }
        Expr::Truth(_, truth) => Ok(Value::Truth(*truth)),
        Expr::Null(_) => Ok(Value::Null),
        Expr::Name(_, name) => Ok(value_seen(name.as_str(), around)?),
        Expr::List(place, list) => {
            let values = items(alloc, list, around, natives)?;
            gathered_value(*place, values)
        }
        Expr::Map(place, pairs) => {
            let values = entries(alloc, pairs, around, natives)?;
            map_value(alloc, *place, values)
        }
        Expr::Closure(closure) => Err(fault_at(closure.place, EvalKind::WrongKind)),
        Expr::Prefix(operators, of) => {
            let of = value(alloc, of, around, natives)?;
            prefixed(operators, of)
        }
        Expr::Infix(first, rest) => {
            let first = value(alloc, first, around, natives)?;
            crate::levels::operands(alloc, rest, first, around, natives)
        }
        Expr::Conditional(first, rest) => {
            let first = value(alloc, first, around, natives)?;
            crate::conditionals::conditional(alloc, rest, first, around, natives)
        }
        Expr::Postfix(first, rest) => {
            let next = closure_next(rest, false);
            let first = crate::chains::subject(alloc, first, next, around, natives)?;
            let last = crate::chains::parts(alloc, rest, first, false, around, natives)?;
            read(alloc, last, around)
        }
    }
}

/// Applies the operators before a value, the innermost first.
fn prefixed(operators: &[Prefix], of: Value) -> Result<Value, EvalRefusal>
    ensures { Evaluates (prefixed_of operators.now (plain_of of)) result }
{
    let mut value = of;
    let mut end = operators.len();
    while end > 0 {
        end -= 1;
        value = prefix_value(operators[end].place, operators[end].operator, &value)?;
    }
    Ok(value)
}

/// The values of a list's items. Once they weigh more than a list may, only their weight is kept.
#[cycle(value)]
pub(crate) fn items<N: Natives>(
    alloc: Global,
    list: &[Expr],
    around: &Around<'_>,
    natives: &N,
) -> Result<Gathered, EvalRefusal>
    requires { N.keeps natives.now }
    ensures { Gathers ((meaning_of (views list.now)).items (seen around.now (N.titles natives.now) (N.answer natives.now))) result }
{
    let mut values = Gathered::new(alloc);
    for item in list {
        values.push(value(alloc, item, around, natives)?)?;
    }
    Ok(values)
}

/// The keys and values of a map's pairs.
#[cycle(value)]
pub(crate) fn entries<N: Natives>(
    alloc: Global,
    pairs: &[Pair],
    around: &Around<'_>,
    natives: &N,
) -> Result<Vec<(Txt, Value)>, EvalRefusal>
    requires { N.keeps natives.now }
    ensures { Binds ((meaning_of (trees (map view_pair pairs.now))).entries (seen around.now (N.titles natives.now) (N.answer natives.now))) result }
{
    let mut entries = Vec::new(alloc);
    for pair in pairs {
        let value = value(alloc, &pair.value, around, natives)?;
        let key = key_of(alloc, &pair.key)?;
        entries.push((key, value))?;
    }
    Ok(entries)
}

/// The text of a key.
fn key_of(alloc: Global, key: &Key) -> Result<Txt, Mem>
    ensures { IfOk result (λ t. t ≡ key_text (key_tree key.now)) }
{
    match key {
        Key::Name(_, name) => name.copy(),
        Key::Text(_, _, text) => text.copy(),
        Key::Template(_, _, None) => Ok(Txt::of(String::new(alloc))),
        Key::Template(_, _, Some((_, text))) => text.copy(),
    }
}

/// The text of a template. Once it is longer than a text may be, only its length is kept.
#[cycle(value)]
pub(crate) fn text<N: Natives>(
    alloc: Global,
    pieces: &[Fragment],
    around: &Around<'_>,
    natives: &N,
) -> Result<Written, EvalRefusal>
    requires { N.keeps natives.now }
    ensures { Writes ((meaning_of (trees (map view_piece pieces.now))).text (seen around.now (N.titles natives.now) (N.answer natives.now))) result }
{
    let mut written = Written::new(alloc);
    for piece in pieces {
        match piece {
            Fragment::Plain(_, text) => written.push(text.as_str())?,
            Fragment::Hole(_, expr) => {
                let value = value(alloc, expr, around, natives)?;
                put_hole(alloc, value, in_process(around), &mut written)?;
            }
        }
    }
    Ok(written)
}

/// Writes the text of a hole.
fn put_hole(alloc: Global, value: Value, in_process: bool, out: &mut Written) -> Result<(), Mem>
    ensures { (t : List ℕ) → IsWritten t out.old → OnOk result (IsWritten (t ++ hole_text in_process (plain_of value)) out.new) }
{
    out.push_hole(alloc, &value, in_process)
}
