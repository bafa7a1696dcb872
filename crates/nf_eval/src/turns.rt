//! Reads a conditional expression from the left, and tells which operands are needed.

ghost use Rattle.std.specs.Prelude.{◌≡◌, ◌≤◌, suc, [], List};
ghost use Rattle.nf_value.specs.declared.place.Place.{Place as Spot};
ghost use Rattle.nf_ast.specs.Tree.{Tree};
ghost use Rattle.nf_ast.specs.View.{Frame, framed, turned, ended as ended_of};
ghost use Rattle.nf_placed.specs.Placed.{Evaluates};
ghost use Rattle.nf_placed.specs.Scope.{Env};
ghost use Rattle.nf_eval.specs.Evaluation.{meaning_of};
ghost use Rattle.nf_eval.specs.Turns.{IsAt, IsNext, waits, next_waits};

use nf_ast::BranchOperator;
use nf_placed::fault_at;
use nf_value::{EvalKind, EvalRefusal, Place, Value, truth};

/// How far a conditional expression was read. The first number counts the conditions that were true and wait for their `:`.
#[derive(Drop)]
pub(crate) enum Turn {
    /// The operand before the next operator was needed, and has this value.
    Live(usize, Value),
    /// This value was chosen, and operands are passed over. The second number counts the `?` among them that wait for their `:`.
    Chosen(usize, Value, usize),
    /// A condition was false, and operands are passed over. The second number counts the `?` among them that wait for their `:`.
    Skipped(usize, usize),
}

/// Whether the operand after an operator is needed, with the numbers of `Turn`.
#[derive(Drop)]
pub(crate) enum Next {
    /// It is needed.
    Due(usize),
    /// It isn't: a value was chosen before it.
    Chosen(usize, Value, usize),
    /// It isn't: a condition before it was false.
    Skipped(usize, usize),
}

/// Whether the operand after the next operator is needed. Fewer than 2^64 - 1 conditions may wait.
pub(crate) fn after(operator: BranchOperator, turn: Turn) -> Next
    requires { suc (waits turn) ≤ usize.MAX }
    ensures reads { (env : Env) (p : Spot) (fs : List Frame) (e : Tree) → IsAt env fs e turn → IsNext env (framed p operator fs e) result }
    ensures fits { next_waits result ≤ suc (waits turn) }
{
    match turn {
        Turn::Live(outer, value) => match operator {
            BranchOperator::Then => asked(outer, value),
            BranchOperator::Elvis => preferred(outer, value),
            BranchOperator::Else => answered(outer, value),
        },
        Turn::Chosen(outer, value, inner) => match operator {
            BranchOperator::Then => Next::Chosen(outer, value, inner + 1),
            BranchOperator::Elvis => Next::Chosen(outer, value, inner),
            BranchOperator::Else => chosen(outer, value, inner),
        },
        Turn::Skipped(outer, inner) => match operator {
            BranchOperator::Then => Next::Skipped(outer, inner + 1),
            BranchOperator::Elvis => Next::Skipped(outer, inner),
            BranchOperator::Else => skipped(outer, inner),
        },
    }
}

/// `?` after a value that is needed.
fn asked(outer: usize, value: Value) -> Next
    requires { suc outer ≤ usize.MAX }
    ensures reads { (env : Env) (p : Spot) (fs : List Frame) (e : Tree) → IsAt env fs e (Turn.Live outer value) → IsNext env (framed p BranchOperator.Then fs e) result }
    ensures fits { next_waits result ≤ suc outer }
{
    if truth(&value) {
        return Next::Due(outer + 1);
    }
    Next::Skipped(outer, 0)
}

/// `?:` after a value that is needed.
fn preferred(outer: usize, value: Value) -> Next
    ensures reads { (env : Env) (p : Spot) (fs : List Frame) (e : Tree) → IsAt env fs e (Turn.Live outer value) → IsNext env (framed p BranchOperator.Elvis fs e) result }
    ensures fits { next_waits result ≤ outer }
{
    if truth(&value) {
        return Next::Chosen(outer, value, 0);
    }
    Next::Due(outer)
}

/// `:` after a value that is needed.
fn answered(outer: usize, value: Value) -> Next
    ensures reads { (env : Env) (p : Spot) (fs : List Frame) (e : Tree) → IsAt env fs e (Turn.Live outer value) → IsNext env (turned p fs e) result }
    ensures fits { next_waits result ≤ outer }
{
    if outer > 0 {
        return Next::Chosen(outer - 1, value, 0);
    }
    if truth(&value) {
        return Next::Chosen(0, value, 0);
    }
    Next::Due(0)
}

/// `:` after operands that are passed over, since a value was chosen.
fn chosen(outer: usize, value: Value, inner: usize) -> Next
    ensures reads { (env : Env) (p : Spot) (fs : List Frame) (e : Tree) → IsAt env fs e (Turn.Chosen outer value inner) → IsNext env (turned p fs e) result }
    ensures fits { next_waits result ≤ waits (Turn.Chosen outer value inner) }
{
    if inner > 0 {
        return Next::Chosen(outer, value, inner - 1);
    }
    answered(outer, value)
}

/// `:` after operands that are passed over, since a condition was false.
fn skipped(outer: usize, inner: usize) -> Next
    ensures reads { (env : Env) (p : Spot) (fs : List Frame) (e : Tree) → IsAt env fs e (Turn.Skipped outer inner) → IsNext env (turned p fs e) result }
    ensures fits { next_waits result ≤ waits (Turn.Skipped outer inner) }
{
    if inner > 0 {
        return Next::Skipped(outer, inner - 1);
    }
    Next::Due(outer)
}

/// The value at the end of the expression.
///
/// # Errors
///
/// `WrongKind` at line 0, where a condition is false and has no `:`. No text of a script is read so.
pub(crate) fn ended(turn: Turn) -> Result<Value, EvalRefusal>
    ensures { (env : Env) (fs : List Frame) (e : Tree) → IsAt env fs e turn → Evaluates ((meaning_of (ended_of fs e)).value env) result }
{
    match turn {
        Turn::Live(_, value) => Ok(value),
        Turn::Chosen(_, value, _) => Ok(value),
        Turn::Skipped(_, _) => Err(fault_at(Place { line: 0, col: 0 }, EvalKind::WrongKind)),
    }
}
