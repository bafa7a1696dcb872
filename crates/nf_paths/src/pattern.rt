//! Patterns of pairs of files, as `*_{1,2}.fq`.

ghost use Rattle.std.specs.Prelude.{◌≡◌, option_map};
ghost use Rattle.std.specs.Str.{chars};
ghost use Rattle.nf_pattern.specs.Glob.{pieces};
ghost use Rattle.nf_paths.specs.Pairs as pairs;
ghost use Rattle.nf_paths.specs.Texts.{pattern_of, parts_of, two_of};

use crate::paths::{is_source_path, name_at};
use crate::texts::{has, has_alternatives, parted};

/// A pattern of pairs of files: `FRONT*BETWEEN{FIRST,SECOND}BACK`.
#[derive(Clone, Copy)]
pub(crate) struct PairPattern<'a> {
    pub(crate) front: &'a str,
    pub(crate) between: &'a str,
    pub(crate) first: &'a str,
    pub(crate) second: &'a str,
    pub(crate) back: &'a str,
}

/// Whether a source of pairs may have this path (Nextflow reference documentation, "Channel factories", "fromFilePairs"): its last component
/// has one `*` and one `{a,b}` after it, and there is no other glob (own). Takes no memory.
pub fn is_pair_path(path: &str) -> bool
    ensures { result ≡ pairs.is_pair_path (chars path.now) }
{
    is_source_path(path) && pair_pattern(name_at(path)).is_some()
}

/// The pattern of pairs that a component is, if it is one.
pub(crate) fn pair_pattern(component: &str) -> Option<PairPattern<'_>>
    ensures { option_map pattern_of result ≡ pairs.pair_pattern (chars component.now) }
{
    let (front, rest) = parted(component, '*')?;
    let (between, rest) = parted(rest, '{')?;
    let (within, back) = parted(rest, '}')?;
    let (first, second) = two_pieces(within)?;
    let pattern = PairPattern {
        front,
        between,
        first,
        second,
        back,
    };
    if has_one_glob(&pattern) {
        Some(pattern)
    } else {
        None
    }
}

/// The two pieces of alternatives that have two.
fn two_pieces(within: &str) -> Option<(&str, &str)>
    ensures { option_map parts_of result ≡ two_of (pieces (chars within.now)) }
{
    let (first, second) = parted(within, ',')?;
    match parted(second, ',') {
        Some(_) => None,
        None => Some((first, second)),
    }
}

/// Whether there is no other glob in a pattern.
fn has_one_glob(pattern: &PairPattern<'_>) -> bool
    ensures { result ≡ pairs.is_pair_pattern (pattern_of pattern.now) }
{
    has_no_glob(pattern.front)
        && !has(pattern.front, '{')
        && has_no_glob(pattern.between)
        && has_no_glob(pattern.first)
        && has_no_glob(pattern.second)
        && has_no_glob(pattern.back)
        && !has_alternatives(pattern.back)
}

/// Whether a text has no `*` and no `?`.
fn has_no_glob(text: &str) -> bool
    ensures { result ≡ pairs.has_no_glob (chars text.now) }
{
    !has(text, '*') && !has(text, '?')
}
