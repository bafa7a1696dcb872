//! Worked globs and paths, and regular expressions that are refused.

use nf_pattern::laws::literal_matches_itself;
use nf_pattern::{PatternFault, WholeRe, glob, is_literal};
use nf_value::Mem;
use std::test::Fail;

/// A pattern, a name, and whether the pattern matches the name.
const GLOBS: &[(&str, &str, bool)] = &[
    ("", "", true),
    ("", "a", false),
    ("abc", "abc", true),
    ("abc", "ab", false),
    ("*", "", true),
    ("*", "abc", true),
    ("*.fq", "a.fq", true),
    ("*.fq", "a.fq.gz", false),
    ("*a*b", "xaab", true),
    ("*a*b", "xaba", false),
    (
        "*a*a*a*a*a*a*a*a*a*a*a*a*a*a*b",
        "aaaaaaaaaaaaaaaaaaaaaaaaaaaaaaaaaaaaaaaaaaaaaaaaaaaaaaaaaaaaaaaa",
        false,
    ),
    ("a*b*c", "abbc", true),
    ("?", "é", true),
    ("??", "é", false),
    ("?", "", false),
    ("a?c", "a€c", true),
    ("*", ".x", false),
    ("?x", ".x", false),
    (".*", ".x", true),
    (".?", ".x", true),
    ("*.x", ".x", true),
    ("*.x", "..x", false),
    ("a*", "a.x", true),
    ("?x", "ax", true),
    ("{*,b}", ".x", false),
    ("{.*,b}", ".x", true),
    ("{a*,b?}.fq", "a.fq", true),
    ("{a*,b?}.fq", "abc.fq", true),
    ("{a*,b?}.fq", "bc.fq", true),
    ("{a*,b?}.fq", "b.fq", false),
    ("{a*,b?}.fq", "c.fq", false),
    ("{", "{", true),
    ("}", "}", true),
    ("{}", "", true),
    ("{}", "{}", false),
    ("a{b", "a{b", true),
    ("a{b", "ab", false),
    ("a,b", "a,b", true),
    ("a,b", "a", false),
    ("}{", "}{", true),
    ("{a{b,c}", "a{b", true),
    ("{a{b,c}", "c", true),
    ("{a{b,c}", "ab", false),
    ("{a,b}}", "a}", true),
    ("{a,}b", "b", true),
    ("{a,b,c}", "c", true),
    ("x{a,b}y{c,d}z", "xbycz", true),
    ("x{a,b}y{c,d}z", "xbyaz", false),
    ("*{1,2}.fq", "s12.fq", true),
    ("{*a,*b}{c,d*}", "xbdc", true),
];

/// A path, and whether it is literal.
const PATHS: &[(&str, bool)] = &[
    ("", true),
    ("data/a.txt", true),
    ("data/*.txt", false),
    ("da*a/a.txt", false),
    ("data/?.txt", false),
    ("data/{a,b}.txt", false),
    ("data/{}", false),
    ("data/{a", true),
    ("data/a}", true),
    ("data/}{", true),
    ("data{/a}", true),
    ("a,b/c", true),
];

#[test]
fn globs(rt: HostRuntime) -> Result<(), Fail> {
    for (pattern, name, want) in GLOBS.iter().copied() {
        assert_eq!(rt; glob(pattern, name), want, "at {pattern:?} {name:?}");
    }
    Ok(())
}

#[test]
fn literal_paths(rt: HostRuntime) -> Result<(), Fail> {
    for (path, want) in PATHS.iter().copied() {
        assert_eq!(rt; is_literal(path), want, "at {path:?}");
    }
    literal_matches_itself();
    Ok(())
}

#[test]
fn refused(rt: HostRuntime) -> Result<(), Fail> {
    let alloc = rt.alloc();
    assert_eq!(rt;
        WholeRe::new(alloc, "(").err(),
        Some(PatternFault::NoPattern)
    );
    assert_eq!(rt;
        WholeRe::new(alloc, r"\d{99999}").err(),
        Some(PatternFault::TooLarge)
    );
    let fault: PatternFault = Mem.into();
    let text = format!(in alloc; "{fault}")?;
    assert_eq!(rt; text.as_str(), "Mem");
    Ok(())
}
