//! Laws of what tokens and texts come to, as contracts of functions that do nothing. Want of memory plays no part in them.

ghost use Rattle.std.specs.Prelude.{◌≡◌, ℕ, List};
ghost use Rattle.nf_value.specs.declared.place.Place.{Place};
ghost use Rattle.nf_token.specs.declared.token.Lexeme.{Lexeme};
ghost use Rattle.nf_outcomes.specs.Outcome.{ScriptOutcome, IsOutcome, TextOutcome, IsTextOutcome};

/// Tokens come to some outcome (own): they spell a script, or go wrong at a place, or pass a limit at a place. `end` is the place of the
/// text's end.
pub fn some_outcome()
    ensures { (ts : List Lexeme) (end : Place) → (o : ScriptOutcome) × IsOutcome ts end o }
{}

/// Tokens come to one outcome at most (own).
pub fn one_outcome()
    ensures { (ts : List Lexeme) (end : Place) (o p : ScriptOutcome) → IsOutcome ts end o → IsOutcome ts end p → o ≡ p }
{
    nf_parser::laws::one_tree();
    nf_parser::laws::one_unexpected();
    nf_parser::laws::one_too_deep();
}

/// A text comes to some outcome (own): it breaks a rule of the tokens, or it has tokens, which come to theirs.
pub fn some_text_outcome()
    ensures { (text : List ℕ) → (o : TextOutcome) × IsTextOutcome text o }
{
    nf_lexer::laws::some_answer();
}

/// A text comes to one outcome at most (own).
pub fn one_text_outcome()
    ensures { (text : List ℕ) (o p : TextOutcome) → IsTextOutcome text o → IsTextOutcome text p → o ≡ p }
{
    nf_lexer::laws::one_list();
    nf_lexer::laws::one_break();
    nf_lexer::laws::never_both();
    one_outcome();
}
