//! Conditional expressions: `?`, `:` and `?:`, whose operands stand in one list.

ghost use Rattle.std.specs.Prelude.{◌≡◌, ◌≤◌, ◌+◌, suc, map, true, false, not, OnOk, ◌++◌};
ghost use Rattle.nf_ast.specs.View.{view, view_branch};
ghost use Rattle.nf_writer.specs.Ink.{inked};
ghost use Rattle.nf_printer.specs.Chains.{none_late as none_late_of, opens_late as opens_late_of, is_late as is_late_of, asked_after, is_condition as is_condition_of, branch_inks, colons as colons_of, is_held as is_held_of};

use crate::levels::{CONDITION, level};
use nf_ast::{Branch, BranchOperator, Expr};
use nf_token::Mark;
use nf_value::Mem;
use nf_writer::Writer;

/// What the operators read so far of a conditional expression leave open.
#[derive(Clone, Copy)]
pub struct BranchState {
    /// How many `?` still wait for their `:`.
    pub asked: usize,
    /// Whether any operator was read.
    pub begun: bool,
}

impl BranchState {
    /// No operator was read.
    pub fn none() -> BranchState
        ensures { result ≡ record { asked = 0; begun = false } }
    {
        BranchState {
            asked: 0,
            begun: false,
        }
    }

    /// After one operator more. Fewer than 2^64 - 1 `?` may wait.
    pub fn after(self, operator: BranchOperator) -> BranchState
        requires { suc self.asked ≤ usize.MAX }
        ensures { result ≡ record { asked = asked_after operator self.asked; begun = true } }
    {
        let asked = match operator {
            BranchOperator::Then => self.asked + 1,
            BranchOperator::Else => self.asked.saturating_sub(1),
            BranchOperator::Elvis => self.asked,
        };
        BranchState { asked, begun: true }
    }

    /// Whether this is a `:` that no `?` waits for, and an operator came before. It is printed as `?:`, with all before it in brackets.
    fn is_late(self, operator: BranchOperator) -> bool
        ensures { result ≡ is_late_of operator self.asked self.begun }
    {
        match operator {
            BranchOperator::Else => self.asked == 0 && self.begun,
            _ => false,
        }
    }

    /// Whether the operand before this operator is a condition, or stands before `?:`.
    fn is_condition(self, operator: BranchOperator) -> bool
        ensures { result ≡ is_condition_of operator self.asked self.begun }
    {
        match operator {
            BranchOperator::Then | BranchOperator::Elvis => true,
            BranchOperator::Else => self.asked == 0 && !self.begun,
        }
    }

    /// Prints the operator, after a `)` where all before it stands in brackets.
    pub fn put(self, operator: BranchOperator, out: &mut Writer) -> Result<(), Mem>
        ensures { OnOk result (out.new ≡ out.old ++ inked (branch_inks operator self.asked self.begun)) }
    {
        match operator {
            BranchOperator::Then => out.spaced(Mark::Question),
            BranchOperator::Elvis => out.spaced(Mark::Elvis),
            BranchOperator::Else => self.put_else(out),
        }
    }

    fn put_else(self, out: &mut Writer) -> Result<(), Mem>
        ensures { OnOk result (out.new ≡ out.old ++ inked (branch_inks BranchOperator.Else self.asked self.begun)) }
    {
        if self.asked > 0 {
            return out.spaced(Mark::Colon);
        }
        out.close_round(self.begun)?;
        out.spaced(Mark::Elvis)
    }
}

/// Whether an operand needs brackets because of the operator after it.
pub fn holds(expr: &Expr, after: &[Branch], state: BranchState) -> bool
    ensures { result ≡ is_held_of (view expr.now) (map view_branch after.now) state.asked state.begun }
{
    match after {
        [] => false,
        [branch, ..] => state.is_condition(branch.operator) && level(expr) < CONDITION,
    }
}

/// Whether some `:` is late, so that a `(` opens before the first operand.
pub fn has_late(rest: &[Branch]) -> bool
    ensures { not result ≡ none_late_of (map view_branch rest.now) 0 false }
{
    let mut state = BranchState::none();
    for branch in rest {
        if state.is_late(branch.operator) {
            return true;
        }
        state = state.after(branch.operator);
    }
    false
}

/// Prints a `(` before the first operand for each `:` that is late.
pub fn open_late(rest: &[Branch], out: &mut Writer) -> Result<(), Mem>
    ensures { OnOk result (out.new ≡ out.old ++ inked (opens_late_of (map view_branch rest.now) 0 false)) }
{
    let mut state = BranchState::none();
    for branch in rest {
        out.open_round(state.is_late(branch.operator))?;
        state = state.after(branch.operator);
    }
    Ok(())
}

/// Prints the `:` of each `?` that still waits, with nothing after it.
pub fn put_colons(asked: usize, out: &mut Writer) -> Result<(), Mem>
    ensures { OnOk result (out.new ≡ out.old ++ inked (colons_of asked)) }
{
    for colon in 0..asked {
        out.spaced(Mark::Colon)?;
    }
    Ok(())
}
