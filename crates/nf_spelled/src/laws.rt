//! Laws of scripts that texts spell, each a contract over the definitions alone.

ghost use Rattle.std.specs.Prelude.{ℕ, List};
ghost use Rattle.nf_value.specs.declared.place.Place.{Place};
ghost use Rattle.nf_token.specs.declared.token.Lexeme.{Lexeme};
ghost use Rattle.nf_lexer.specs.Tokens.{IsTokensOf};
ghost use Rattle.nf_ast.specs.Tree.{Tree};
ghost use Rattle.nf_parser.specs.Spells.{Whole};
ghost use Rattle.nf_meaning.specs.CallPaths.{NamesArePlain};
ghost use Rattle.nf_meaning.specs.Script.{definitions_of};

/// The processes and workflows of a script that the tokens of a text spell have names without a colon (own): a name is
/// made of letters, digits and `_` (Nextflow reference documentation, "Syntax", "Identifiers"). So `MAIN:ALIGN` is the
/// path of one call alone.
pub fn names_are_plain()
    ensures { (text : List ℕ) (tokens : List Lexeme × Place) (tree : Tree) → IsTokensOf text tokens
        → Whole tokens.0 tree → NamesArePlain (definitions_of tree) }
{}
