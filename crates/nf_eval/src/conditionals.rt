//! Conditional expressions (`c ? a : b`, `a ?: b`), whose operands stand in one list.

ghost use Rattle.std.specs.Prelude.{◌≡◌, ◌≤◌, suc, [], List, IfOk, map, Ok};
ghost use Rattle.nf_value.specs.View.{plain_of};
ghost use Rattle.nf_ast.specs.Tree.{Tree};
ghost use Rattle.nf_ast.specs.View.{view, view_branch, Frame, framed, conditional as conditional_tree};
ghost use Rattle.nf_placed.specs.Placed.{Evaluates};
ghost use Rattle.nf_eval.specs.Evaluation.{meaning_of};
ghost use Rattle.nf_eval.specs.Memory.{seen};
ghost use Rattle.nf_eval.specs.Turns.{IsAt, Steps, waits};

use crate::around::Around;
use crate::turns::{Next, Turn, after, ended};
use nf_ast::Branch;
use nf_builtins::Natives;
use nf_value::{EvalRefusal, Value};
use std::alloc::Global;

/// The value of a conditional expression. `first` is the value of its first operand.
#[cycle(value)]
pub(crate) fn conditional<N: Natives>(
    alloc: Global,
    rest: &[Branch],
    first: Value,
    around: &Around<'_>,
    natives: &N,
) -> Result<Value, EvalRefusal>
    requires { N.keeps natives.now }
    ensures { (e : Tree) → (meaning_of e).value (seen around.now (N.titles natives.now) (N.answer natives.now)) ≡ Ok (plain_of first) → Evaluates ((meaning_of (conditional_tree [] e (map view_branch rest.now))).value (seen around.now (N.titles natives.now) (N.answer natives.now))) result }
{
    let mut turn = Turn::Live(0, first);
    for branch in rest {
        turn = step(alloc, branch, turn, around, natives)?;
    }
    ended(turn)
}

/// Goes past an operator and the operand after it, which is evaluated only where it is needed. Fewer than 2^64 - 1 conditions may wait.
#[cycle(value)]
pub(crate) fn step<N: Natives>(
    alloc: Global,
    branch: &Branch,
    turn: Turn,
    around: &Around<'_>,
    natives: &N,
) -> Result<Turn, EvalRefusal>
    requires kept { N.keeps natives.now }
    requires room { suc (waits turn) ≤ usize.MAX }
    ensures steps { (fs : List Frame) (e : Tree) → IsAt (seen around.now (N.titles natives.now) (N.answer natives.now)) fs e turn → Steps (seen around.now (N.titles natives.now) (N.answer natives.now)) (framed (view_branch branch.now).place branch.now.operator fs e) (view_branch branch.now).expr result }
    ensures fits { IfOk result (λ t. waits t ≤ suc (waits turn)) }
{
    match after(branch.operator, turn) {
        Next::Due(outer) => {
            let value = crate::values::value(alloc, &branch.expr, around, natives)?;
            Ok(Turn::Live(outer, value))
        }
        Next::Chosen(outer, value, inner) => Ok(Turn::Chosen(outer, value, inner)),
        Next::Skipped(outer, inner) => Ok(Turn::Skipped(outer, inner)),
    }
}
