//! The names that all rows know.

use crate::parsed::parsed;
use anyhow::{Result, bail};
use nf_builtins::Natives;
use nf_eval::{Env, Library, eval};
use nf_value::{Digest, FileRef, Txt, Value};
use std::alloc::Global;
use std::sync::Arc;

/// Names and the expressions of their values, each over those before it.
const NAMES: &[(&str, &str)] = &[
    ("x", "10"),
    ("none", "null"),
    ("word", "'abc'"),
    ("kilo", "(1..128).collect { 'abcdefgh' }.join('')"),
    ("xs", "[3, 1, 2]"),
    ("m", "[a: 1, b: [2, 3]]"),
    ("files", "[reads, reads]"),
    (
        "deep",
        "[[[[[[[[[[[[[[[[[[[[[[[[[[[[[[[[[[[[[[[[[[[[[[[[[[[[[[[[[[[[[[[[]]]]]]]]]]]]]]]]]]]]]]]]]]]]]]]]]]]]]]]]]]]]]]]]]]]]]]]]]]]]]]]]",
    ),
];

/// Names, and the names of the files that they are bound to.
const FILES: &[(&str, &str)] = &[
    ("reads", "reads.fastq.gz"),
    ("fastq", "a.fq.gz"),
    ("tarball", "a.tar.gz"),
    ("dotfile", ".bashrc"),
    ("readme", "README"),
    ("dotted", "a."),
    ("accented", "é.x.y"),
    ("stem_b", "a.b"),
    ("file_a", "a"),
    ("file_b", "b"),
];

/// An environment with the files and the names over a library.
pub(crate) fn known<N: Natives>(alloc: Global, library: Library, natives: &N) -> Result<Env>
    requires { N.keeps natives.now }
{
    let mut env = Env::new(alloc, Arc::new(alloc, library)?);
    add_files(alloc, &mut env)?;
    for (name, of) in NAMES.iter().copied() {
        let of = parsed(alloc, of)?;
        match eval(alloc, &of, &env, natives) {
            Ok(value) => env.define(text(alloc, name)?, value)?,
            Err(_) => bail!("{name} has no value"),
        }
    }
    Ok(env)
}

/// Binds names to files.
fn add_files(alloc: Global, env: &mut Env) -> Result<()> {
    for (name, of) in FILES.iter().copied() {
        env.define(text(alloc, name)?, Value::of_file(alloc, file(alloc, of)?)?)?;
    }
    Ok(())
}

/// An empty file of that name.
fn file(alloc: Global, name: &str) -> Result<FileRef> {
    Ok(FileRef {
        name: text(alloc, name)?,
        digest: Digest([0; 32]),
        len: 0,
    })
}

fn text(alloc: Global, text: &str) -> Result<Txt> {
    Ok(Txt::of(String::from_str(alloc, text)?))
}
