//! Laws of the table of operators, each as a contract over the definitions alone.

ghost use Rattle.std.specs.Prelude.{All};
ghost use Rattle.nf_optable.specs.declared.operator.Operator.{Operator};
ghost use Rattle.nf_optable.specs.Rows.{HasRow};

/// Each operator that has a bag, and each whose result is the order of arrival, is found by its name.
pub fn each_has_a_row()
    ensures { (o : Operator) → HasRow o }
{}
