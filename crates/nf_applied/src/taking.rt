//! What is taken of arguments in the body where the walk stands.

ghost use Rattle.std.specs.Prelude.{◌≡◌, IfOk, Some};
ghost use Rattle.nf_arguments.specs.Args.{written_arg};
ghost use Rattle.nf_ast.specs.View.{view};
ghost use Rattle.nf_bag.specs.declared.rows.Row.{Row};
ghost use Rattle.nf_meaning.specs.Arguments.{Arg};
ghost use Rattle.nf_taken.specs.Bodies.{IsIn, option_walk};
ghost use Rattle.nf_taken.specs.Wanted.{FitsAlone, alone_walk};
ghost use Rattle.nf_walked.specs.Around.{CanWalk, Knows};
ghost use Rattle.nf_walked.specs.Steps.{Here, Walked, from};
ghost use Rattle.nf_applied.specs.Taking.{TakenFits, a_taken};

use nf_arguments::Written;
use nf_ast::Expr;
use nf_builtins::Natives;
use nf_lowering::Lowering;
use nf_meaning::LowerFault;
use nf_optable::Options;
use nf_taken::{Alone, Body, Taken};
use nf_value::{Place, Txt};
use nf_walked::{Walker, bad_option};

/// The body in which the walk stands (own). Takes no memory.
pub fn body_at<'b, 'a, N: Natives>(
    walker: &'b Walker<'a, N>,
    state: &'b Lowering,
) -> Body<'b, 'a, N>
    ensures same { Here (Knows N.titles N.answer walker.now) state.now
        (λ p. IsIn N.titles N.answer result p.around p.state) }
    ensures around { result.around.now ≡ walker.now.around.now }
{
    Body {
        alloc: walker.alloc,
        around: walker.around,
        names: state.names(),
    }
}

/// What is taken of an argument without a name, whatever it stands for (Nextflow reference documentation,
/// "Operators").
///
/// # Errors
///
/// As for `Body::take`.
pub fn take_alone<N: Natives>(
    walker: &Walker<'_, N>,
    state: &Lowering,
    alone: Alone<'_>,
    arg: Written<'_>,
    taken: Taken,
) -> Result<Taken, LowerFault>
    requires { CanWalk N.titles N.answer N.keeps walker.now state.now }
    ensures walk { (r : Row) → FitsAlone r alone.entry → TakenFits r state.now.plan taken
        → Walked (Knows N.titles N.answer walker.now)
        (from (a_taken r) taken (a_taken r) (alone_walk alone.entry (written_arg arg.entry)))
        state.now state.now result }
    ensures ports { (r : Row) → FitsAlone r alone.entry → IfOk result (λ x. x.ports.items ≡ taken.ports.items) }
{
    body_at(walker, state).take(alone, arg, taken)
}

/// What is taken of an option, whose name stands at `place` (Nextflow reference documentation, "Operators").
///
/// # Errors
///
/// As for `Body::take_option`.
pub fn take_named<N: Natives>(
    walker: &Walker<'_, N>,
    state: &Lowering,
    options: Options,
    place: Place,
    name: &Txt,
    arg: Written<'_>,
    taken: Taken,
) -> Result<Taken, LowerFault>
    requires before { CanWalk N.titles N.answer N.keeps walker.now state.now }
    requires label { (written_arg arg).label ≡ Some (place, name.now) }
    ensures walk { (r : Row) → TakenFits r state.now.plan taken → Walked (Knows N.titles N.answer walker.now)
        (from (a_taken r) taken (a_taken r) (option_walk options (place, name.now) (written_arg arg.entry)))
        state.now state.now result }
    ensures ports { IfOk result (λ x. x.ports.items ≡ taken.ports.items) }
{
    match arg {
        Written::Arg(arg) => take_option(walker, state, options, place, name, &arg.value, taken),
        // No closure behind the brackets has a name.
        Written::Closure(closure) => bad_option(closure.place),
    }
}

/// The same of the option's value.
fn take_option<N: Natives>(
    walker: &Walker<'_, N>,
    state: &Lowering,
    options: Options,
    place: Place,
    name: &Txt,
    value: &Expr,
    taken: Taken,
) -> Result<Taken, LowerFault>
    requires { CanWalk N.titles N.answer N.keeps walker.now state.now }
    ensures walk { (r : Row) (x : Arg) → x.tree ≡ view value.now → TakenFits r state.now.plan taken
        → Walked (Knows N.titles N.answer walker.now)
        (from (a_taken r) taken (a_taken r) (option_walk options (place, name.now) x)) state.now state.now result }
    ensures ports { IfOk result (λ x. x.ports.items ≡ taken.ports.items) }
{
    body_at(walker, state).take_option(options, place, name.as_str(), value, taken)
}
