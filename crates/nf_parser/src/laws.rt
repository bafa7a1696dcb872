//! Laws of what tokens spell: each function does nothing, and its contract is the law.

ghost use Rattle.std.specs.Prelude.{◌≡◌, List};
ghost use Rattle.nf_value.specs.declared.place.Place.{Place};
ghost use Rattle.nf_token.specs.declared.token.Lexeme.{Lexeme};
ghost use Rattle.nf_ast.specs.Tree.{Tree};
ghost use Rattle.nf_parser.specs.Spells.{Whole, Spells, IsUnexpected, IsTooDeep};

/// Tokens go wrong at one place at most.
pub fn one_unexpected()
    ensures { (ts : List Lexeme) (end p q : Place) → IsUnexpected ts end p → IsUnexpected ts end q → p ≡ q }
{}

/// There is one place at most where tokens first pass a limit.
pub fn one_too_deep()
    ensures { (ts : List Lexeme) (end p q : Place) → IsTooDeep ts end p → IsTooDeep ts end q → p ≡ q }
{}

/// Tokens that go wrong spell no script.
pub fn unexpected_spells_none()
    ensures { (ts : List Lexeme) (end p : Place) (v : Tree) → IsUnexpected ts end p → Spells ts v → ⊥ }
{}

/// Tokens that pass a limit spell no script.
pub fn too_deep_spells_none()
    ensures { (ts : List Lexeme) (end p : Place) (v : Tree) → IsTooDeep ts end p → Spells ts v → ⊥ }
{}

/// Tokens don't both go wrong and pass a limit.
pub fn not_both()
    ensures { (ts : List Lexeme) (end p q : Place) → IsUnexpected ts end p → IsTooDeep ts end q → ⊥ }
{}

/// Tokens have one reading as a whole script at most, also where another reading passes a limit.
pub fn one_whole()
    ensures { (ts : List Lexeme) (v w : Tree) → Whole ts v → Whole ts w → v ≡ w }
{}

/// Tokens spell one script at most.
pub fn one_tree()
    ensures { (ts : List Lexeme) (v w : Tree) → Spells ts v → Spells ts w → v ≡ w }
{}
