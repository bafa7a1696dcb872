//! Bytes that are no text, and the fronts of a script, as tokens.

use crate::makers::PIPELINE;
use nf_lexer::{laws, tokens};
use std::alloc::Global;
use std::test::Fail;

/// Bytes that are no UTF-8, in each kind of place.
const BROKEN_BYTES: &[(&[u8], &str)] = &[
    (b"#!ab\xc3\xa9\xe2\x82\nx", "1:7: BadByte"),
    (b"x \xff", "1:3: BadByte"),
    (b"'a\xc3\xa9\xff", "1:5: BadByte"),
    (b"'''\n\xff", "2:1: BadByte"),
    (b"/\xff/", "1:2: BadByte"),
    (b"~/\xff/", "1:3: BadByte"),
    (b"\"\xe2\x82\"", "1:2: BadByte"),
    (b"// \xe2\x82\n", "1:4: BadByte"),
    (b"/* \xf0\x9f*/", "1:4: BadByte"),
    (b"'\n\xff", "1:1: OpenString"),
    (b"\"\"\"\xff", "1:4: BadByte"),
    (b"\"${\xff", "1:4: BadByte"),
    (b"\"$a\xff\"", "1:4: BadByte"),
    (b"'\xc0\x80'", "1:2: BadByte"),
    (b"'\xed\xa0\x80'", "1:2: BadByte"),
    (b"'a\xf4\x90\x80\x80'", "1:3: BadByte"),
];

/// The fault of a text's tokens; nothing where there is none.
fn fault(alloc: Global, text: &[u8]) -> Result<String, Fail> {
    match tokens(alloc, text) {
        Ok(_) => Ok(String::new(alloc)),
        Err(fault) => Ok(format!(in alloc; "{fault}")?),
    }
}

#[test]
fn breaks_off_at_broken_bytes(rt: HostRuntime) -> Result<(), Fail> {
    for (text, want) in BROKEN_BYTES.iter().copied() {
        let found = fault(rt.alloc(), text)?;
        assert_eq!(rt; found.as_str(), want, "at {text:?}");
    }
    Ok(())
}

#[test]
fn has_laws() {
    laws::some_answer();
    laws::one_list();
    laws::one_break();
    laws::too_long_exactly();
    laws::never_both();
    laws::longest_mark();
    laws::tokens_are_utf8();
}

/// Each front of a script is a list, or breaks off in a string or in the first line's `#!`; the same at each reading.
#[test]
fn lexes_fronts_of_a_script(rt: HostRuntime) -> Result<(), Fail> {
    let mut lists = 0u32;
    let mut open = 0u32;
    for end in 0..=PIPELINE.len() {
        let front = PIPELINE.as_bytes().get(..end).unwrap_or(&[]);
        let found = fault(rt.alloc(), front)?;
        let again = fault(rt.alloc(), front)?;
        assert_eq!(rt; found.as_str(), again.as_str());
        if found.is_empty() {
            lists = lists.saturating_add(1);
        } else if found.as_str() != "1:1: BadByte" {
            assert!(rt; found.as_str().ends_with(": OpenString"), "{found}");
            open = open.saturating_add(1);
        }
    }
    assert_eq!(rt; (lists, open), (553, 141));
    Ok(())
}
