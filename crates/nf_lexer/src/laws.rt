//! Laws of what the tokens of a text are: each function does nothing, and its contract is the law.

ghost use Rattle.std.specs.Prelude.{◌≡◌, ◌⊎◌, ◌<◌, ◌↔◌, ℕ, List, ◌++◌, length};
ghost use Rattle.std.specs.List.{Contains};
ghost use Rattle.std.specs.Str.{IsUtf8};
ghost use Rattle.nf_value.specs.declared.place.Place.{Place};
ghost use Rattle.nf_lexer.specs.declared.fault.LexFault.{LexFault};
ghost use Rattle.nf_lexer.specs.declared.fault.LexFault.TheVariants.{ScriptTooLong};
ghost use Rattle.nf_token.specs.declared.token.Lexeme.{Lexeme};
ghost use Rattle.nf_token.specs.declared.token.Mark.{Mark};
ghost use Rattle.nf_lexer.specs.Longest.{IsLongest};
ghost use Rattle.nf_lexer.specs.Mark.{mark};
ghost use Rattle.nf_token.specs.Spellings.{marks};
ghost use Rattle.nf_lexer.specs.Tokens.{IsTokensOf, Breaks, most_bytes};

/// Each text has tokens or breaks a rule.
pub fn some_answer()
    ensures { (text : List ℕ) → ((t : List Lexeme × Place) × IsTokensOf text t) ⊎ ((f : LexFault) × Breaks text f) }
{}

/// A text has at most one list of tokens and one end.
pub fn one_list()
    ensures { (text : List ℕ) (t u : List Lexeme × Place) → IsTokensOf text t → IsTokensOf text u → t ≡ u }
{}

/// A text breaks at most one rule first, and at one place.
pub fn one_break()
    ensures { (text : List ℕ) (f g : LexFault) → Breaks text f → Breaks text g → f ≡ g }
{}

/// `ScriptTooLong` is the rule broken exactly where the text has more than the most bytes.
pub fn too_long_exactly()
    ensures { (text : List ℕ) → Breaks text ScriptTooLong ↔ most_bytes < length text }
{}

/// A text that has tokens breaks no rule.
pub fn never_both()
    ensures { (text : List ℕ) (t : List Lexeme × Place) (f : LexFault) → IsTokensOf text t → Breaks text f → ⊥ }
{}

/// A text that has tokens is UTF-8.
pub fn tokens_are_utf8()
    ensures { (text : List ℕ) (t : List Lexeme × Place) → IsTokensOf text t → IsUtf8 text }
{}

/// Where a text begins with a mark, the longest that it begins with is taken.
pub fn longest_mark()
    ensures { (bs : List ℕ) (x : List ℕ × Mark) (more : List ℕ) → Contains marks x → bs ≡ x.0 ++ more → IsLongest marks (mark bs) bs x }
{}
