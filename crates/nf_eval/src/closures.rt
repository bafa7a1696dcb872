//! A closure with the environment that it was made in.

ghost use Rattle.std.specs.Prelude.{◌≡◌, ℕ, List, Option};
ghost use Rattle.nf_value.specs.Plain.{Plain};
ghost use Rattle.nf_ast.specs.View.{view_closure};
ghost use Rattle.nf_eval.specs.Memory.{env_of, closing};
ghost use Rattle.nf_eval.specs.Closing.{closing_of};

use crate::environment::Env;
use nf_ast::ClosureExpr as Code;

/// A closure with the environment that it was made in (Nextflow reference documentation, "Syntax", "Closure"). Contracts see its `closing_of`.
pub struct Closure {
    pub(crate) code: Code,
    pub(crate) env: Env,
}

impl Drop for Closure {
    fn drop(self) {
        let Closure { code: _, env: _ } = self;
    }
}

impl Closure {
    /// The closure of this code, made in this environment. Takes no memory.
    pub fn new(code: Code, env: Env) -> Closure
        ensures { (titles : List (List ℕ)) (answer : ℕ → List Plain → Option Plain) → closing_of result titles answer ≡ closing (view_closure code) (env_of env titles answer) }
    {
        Closure { code, env }
    }
}
