//! What an operator's node answers to an item.

ghost use Rattle.std.specs.Prelude.{◌≡◌, [], ◌∷◌, IfOk};
ghost use Rattle.nf_value.specs.View.{plain_of};
ghost use Rattle.nf_meaning.specs.Answer.{is_text_of};
ghost use Rattle.nf_eval.specs.Placed.{Evaluates};
ghost use Rattle.nf_tasks.specs.Memory.{formula_of, program};
ghost use Rattle.nf_bodies.specs.Bodies.{answer_of, matches_whole};

use crate::body::NodeBody;
use crate::labels::{first_true, label_values};
use nf_builtins::Natives;
use nf_eval::{Closure, apply};
use nf_pattern::WholeRe;
use nf_value::{EvalRefusal, Mem, Vals, Value};
use std::alloc::Global;

impl NodeBody {
    /// The answer of an operator's node to an item (Nextflow reference documentation, "Operators"): by its closure, its value or its
    /// pattern, or else the item itself. Any other node gives the item.
    ///
    /// # Errors
    ///
    /// `Fault` exactly where a closure has a fault on the item, with the first. `Mem` for want of memory.
    pub fn gives<N: Natives>(
        &self,
        alloc: Global,
        item: &Value,
        natives: &N,
    ) -> Result<Value, EvalRefusal>
        requires { N.keeps natives.now }
        ensures { Evaluates
            (answer_of (program (N.titles natives.now) (N.answer natives.now)) self.now (plain_of item.now)) result }
    {
        match self {
            NodeBody::Literal(value) => Ok(Value::Truth(*item == *value)),
            NodeBody::Pattern(re) => Ok(Value::Truth(is_text_of(alloc, re, item)?)),
            NodeBody::Applied(closure) => applied(alloc, closure, &only(alloc, item)?, natives),
            NodeBody::Branch(labels) => first_true(alloc, labels, &only(alloc, item)?, natives),
            NodeBody::MultiMap(labels) => label_values(alloc, labels, &only(alloc, item)?, natives),
            NodeBody::Source | NodeBody::Item | NodeBody::Process(_) => Ok(item.copy()?),
        }
    }
}

/// Whether the item is a text that the pattern matches as a whole.
fn is_text_of(alloc: Global, re: &WholeRe, item: &Value) -> Result<bool, Mem>
    ensures { IfOk result (λ b. b ≡ is_text_of (matches_whole re.now) (plain_of item.now)) }
{
    match item {
        Value::Text(text) => re.matches_whole(alloc, text.as_str()),
        _ => Ok(false),
    }
}

/// The item as the only argument of a closure.
fn only(alloc: Global, item: &Value) -> Result<Vals, Mem>
    ensures { IfOk result (λ vs. vs ≡ plain_of item.now ∷ []) }
{
    Ok(Vals::of(vec![in alloc; item.copy()?]?))
}

/// What a closure gives for its arguments.
pub(crate) fn applied<N: Natives>(
    alloc: Global,
    closure: &Closure,
    args: &Vals,
    natives: &N,
) -> Result<Value, EvalRefusal>
    requires { N.keeps natives.now }
    ensures { Evaluates
        (formula_of (program (N.titles natives.now) (N.answer natives.now)) closure.now args.now) result }
{
    apply(alloc, closure, args, natives)
}
