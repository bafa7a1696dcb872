//! Laws of error lines, each a contract over the definitions alone.

ghost use Rattle.std.specs.Prelude.{◌≡◌};
ghost use Rattle.nf_ends.specs.Ends.{error_line};
ghost use Rattle.nf_ends.specs.Kinds.{HasLine, kind_of, place_in};
ghost use Rattle.nf_ends.specs.declared.end.End.{End as AnEnd};

/// An error line tells which end it is of, and where in the script: ends of different kinds have different lines, and so have ends
/// at different places.
pub fn lines_tell_ends()
    ensures kind { (e : AnEnd) → (f : AnEnd) → HasLine e → HasLine f → error_line e ≡ error_line f → kind_of e ≡ kind_of f }
    ensures place { (e : AnEnd) → (f : AnEnd) → HasLine e → HasLine f → error_line e ≡ error_line f → place_in e ≡ place_in f }
{}
