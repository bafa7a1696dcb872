//! Finds functions of a script. Each may call those that were added before it.

ghost use Rattle.std.specs.Prelude.{◌≡◌, ◌≤◌, ◌+◌, suc, ℕ, List, Option, None, Some, IfSome, MatchOption};
ghost use Rattle.nf_value.specs.Plain.{Plain};
ghost use Rattle.nf_placed.specs.Scope.{function_in};
ghost use Rattle.nf_eval.specs.Evaluation.{functions_of};
ghost use Rattle.nf_eval.specs.Functions.{definition_of, definitions_in, function_of, depth, depths};

use nf_ast::Function;

/// The latest function of a name, with those that were added before it. Its time grows with the number of functions.
pub(crate) fn function_named<'a>(
    name: &str,
    functions: &'a [Function],
) -> Option<(&'a Function, &'a [Function])>
    ensures found { (patterns : List (List ℕ)) (titles : List (List ℕ)) (answer : ℕ → List Plain → Option Plain) → MatchOption result (function_in name.now (functions_of (definitions_in functions.now) patterns titles answer) ≡ None) (λ f. function_in name.now (functions_of (definitions_in functions.now) patterns titles answer) ≡ Some (function_of (definition_of f.0.now) (definitions_in f.1.now) patterns titles answer)) }
    ensures lighter { IfSome result (λ f. suc (depth f.0.now.body.items) + depths f.1.now ≤ depths functions.now) }
{
    let mut left = functions;
    while let [earlier @ .., last] = left {
        if last.name.as_str() == name {
            return Some((last, earlier));
        }
        left = earlier;
    }
    None
}
