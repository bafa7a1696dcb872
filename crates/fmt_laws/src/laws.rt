//! Laws of formatting, as contracts of functions that do nothing. A crate that needs a law calls its function.

ghost use Rattle.std.specs.Prelude.{◌≡◌, ◌≤◌, ℕ, List, length};
ghost use Rattle.nf_lexer.specs.Tokens.{most_bytes};
ghost use Rattle.nf_ast.specs.Tree.{Tree};
ghost use Rattle.nf_printer.specs.Tops.{canonical};
ghost use Rattle.fmt_laws.specs.Again.{IsSpelled, IsSpelledAgain, IsSpelledAgainAtLength, IsWithinLimits, Formats};

/// The canonical text of a script has tokens, and these spell the same script, places aside (own). The script is one that the tokens
/// of some text spell; the limits on brackets and on chains play no part.
///
/// - `read_back`: a canonical text of at most 1,048,576 bytes has tokens by the lexer, and they spell the script.
/// - `at_length`: a longer one has them too, by the lexer's rules without that limit.
pub fn printed_spells_again()
    ensures read_back { (tree : Tree) → IsSpelled tree → length (canonical tree) ≤ most_bytes → IsSpelledAgain tree }
    ensures at_length { (tree : Tree) → IsSpelled tree → IsSpelledAgainAtLength tree }
{}

/// Formatting twice is formatting once (own). `text` spells a script, and `out` is the canonical text of that script.
///
/// - `fixed`: where `out` is within the limits of a script (its bytes, its brackets, its chains), it spells a script too, whose
///   canonical text is `out` itself.
/// - `same`: whatever canonical text `out` has, it is `out` itself.
pub fn formatted_once()
    ensures fixed { (text out : List ℕ) → Formats text out → IsWithinLimits out → Formats out out }
    ensures same { (text out again : List ℕ) → Formats text out → Formats out again → again ≡ out }
{
    nf_lexer::laws::one_list();
    nf_parser::laws::one_tree();
}
