//! Laws of evaluation, each a contract over the definitions alone.

ghost use Rattle.std.specs.Prelude.{◌≡◌, ℕ, List};
ghost use Rattle.nf_value.specs.Plain.{Plain};
ghost use Rattle.nf_ast.specs.Tree.{Tree};
ghost use Rattle.nf_placed.specs.Scope.{Env};
ghost use Rattle.nf_eval.specs.Evaluation.{eval_of, apply_of, branch_of, labels_of, Closing};
ghost use Rattle.nf_relevant.specs.Reads.{Reads, AreAlike};

/// An expression has the same value, or the same fault, in two environments where the names that stand in it have the same values.
#[tactic(auto, using(crate::proofs::Same::eval_same))]
pub fn by_its_names()
    ensures { (among : List (List ℕ)) (e : Tree) (one other : Env) → Reads among e → AreAlike among one other → eval_of e one ≡ eval_of e other }
{}

/// So has a closure, that of labels too, if it was made in two such environments.
pub fn closures_by_their_names()
    ensures applied { (among : List (List ℕ)) (c : Closing) (other : Env) (vs : List Plain) → Reads among c.body → AreAlike among c.env other
        → apply_of c vs ≡ apply_of (record c { env = other }) vs }
    ensures branched { (among : List (List ℕ)) (c : Closing) (other : Env) (vs : List Plain) → Reads among c.body → AreAlike among c.env other
        → branch_of c vs ≡ branch_of (record c { env = other }) vs }
    ensures labelled { (among : List (List ℕ)) (c : Closing) (other : Env) (vs : List Plain) → Reads among c.body → AreAlike among c.env other
        → labels_of c vs ≡ labels_of (record c { env = other }) vs }
{}
