//! Sources of channels.

ghost use Rattle.std.specs.Prelude.{◌≡◌, option_map};
ghost use Rattle.std.specs.Str.{chars};
ghost use Rattle.nf_meaning.specs.Sources as spec;

use nf_paths::{is_pair_path, is_source_path};
use nf_pattern::is_literal;

/// A source of `channel` (Nextflow reference documentation, "Channel factories").
#[derive(Debug, Drop, Clone, Copy)]
pub enum Source {
    /// `of`
    Of,
    /// `fromList`
    FromList,
    /// `value`
    Value,
    /// `empty`
    Empty,
    /// `fromPath`
    FromPath,
    /// `fromFilePairs`
    FromFilePairs,
}

impl Source {
    ghost use Rattle.nf_opargs.specs.Sources.{source_of};

    /// The source of this name, if there is one. Takes no memory.
    pub fn named(name: &str) -> Option<Source>
        ensures { option_map source_of result ≡ spec.source_named name.now }
    {
        match name {
            "of" => Some(Source::Of),
            "fromList" => Some(Source::FromList),
            "value" => Some(Source::Value),
            "empty" => Some(Source::Empty),
            "fromPath" => Some(Source::FromPath),
            "fromFilePairs" => Some(Source::FromFilePairs),
            _ => None,
        }
    }

    /// Whether it takes so many arguments without a name.
    pub fn takes(self, count: usize) -> bool
        ensures { result ≡ spec.takes (source_of self) count }
    {
        match self {
            Source::Of => 1 <= count,
            Source::Empty => count == 0,
            Source::FromList | Source::Value | Source::FromPath | Source::FromFilePairs => {
                count == 1
            }
        }
    }
}

/// The paths that a source of files, or `file`, may have.
#[derive(Debug, Drop, Clone, Copy)]
pub enum PathKind {
    /// Of `fromPath`.
    Files,
    /// Of `fromFilePairs`.
    Pairs,
    /// Of `file`: a literal path.
    File,
}

impl PathKind {
    ghost use Rattle.nf_opargs.specs.Sources.{fits_kind};

    /// Whether a path is of this kind. Takes no memory.
    pub fn fits(self, path: &str) -> bool
        ensures { result ≡ fits_kind self (chars path.now) }
    {
        match self {
            PathKind::Files => is_source_path(path),
            PathKind::Pairs => is_pair_path(path),
            PathKind::File => is_literal(path),
        }
    }
}
