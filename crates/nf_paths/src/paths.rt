//! Tells which paths sources may have.

ghost use Rattle.std.specs.Prelude.{◌≡◌, ◌<◌, ◌∷◌, [], length, IfSome, MatchOption};
ghost use Rattle.std.specs.Str.{chars};
ghost use Rattle.nf_paths.specs.Paths as paths;
ghost use Rattle.nf_paths.specs.Paths.{components};

use crate::texts::parted;
use nf_pattern::is_literal;

/// Whether a source may have this path (Nextflow reference documentation, "Channel factories", "fromPath"): its folders have no `*`, no `?`
/// and no alternatives (own). Takes no memory.
pub fn is_source_path(path: &str) -> bool
    ensures { result ≡ paths.is_source_path (chars path.now) }
{
    let mut left = path;
    while let Some((folder, rest)) = first_folder(left) {
        if !is_literal(folder) {
            return false;
        }
        left = rest;
    }
    true
}

/// What stands after the last `/` of a path. Takes no memory.
pub fn name_at(path: &str) -> &str
    ensures { chars result.now ≡ paths.name_at (chars path.now) }
{
    let mut left = path;
    while let Some((_, rest)) = first_folder(left) {
        left = rest;
    }
    left
}

/// The first folder of a path, and what stands after it.
fn first_folder(path: &str) -> Option<(&str, &str)>
    ensures components { MatchOption result (components (chars path.now) ≡ chars path.now ∷ [])
        (λ x. components (chars path.now) ≡ chars x.0.now ∷ components (chars x.1.now)) }
    ensures folder { IfSome result (λ x. components (chars x.0.now) ≡ chars x.0.now ∷ []) }
    ensures shorter { IfSome result (λ x. length (chars x.1.now) < length (chars path.now)) }
{
    parted(path, '/')
}
