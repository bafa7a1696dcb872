//! Laws of what operators take, each a contract over the definitions alone.

ghost use Rattle.std.specs.Prelude.{◌≡◌, ℕ, List};
ghost use Rattle.nf_bag.specs.declared.rows.Row.{Row};
ghost use Rattle.nf_meaning.specs.Arguments.{Arg};
ghost use Rattle.nf_optable.specs.declared.rows.ClosureUse.TheVariants as closure;
ghost use Rattle.nf_optable.specs.declared.rows.OpRow.{OpRow};
ghost use Rattle.nf_taken.specs.Calls.{InputsFit, TakesName};

/// The operator of a row may have as many inputs as a call has that the row takes.
pub fn inputs_fit()
    ensures { (k : OpRow) (r : Row) (n : ℕ) → InputsFit k r n }
{}

/// `set` takes a name, and nothing else.
pub fn set_takes_a_name()
    ensures { (k : OpRow) (r : Row) (xs : List Arg) → k.closure ≡ closure.Name → TakesName k r xs }
{}
