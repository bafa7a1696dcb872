//! A script with two processes, and the deepest texts.

use std::alloc::Global;
use std::test::Fail;

/// A script as users write it.
pub const PIPELINE: &str = "\
#!/usr/bin/env nextflow
nextflow.enable.dsl=2
params.reads = 'data/*_{1,2}.fq'
params.outdir = 'results'
process JOINED {
    tag \"$id\"
    cpus 2
    memory '4 GB'
    container 'quay.io/biocontainers/coreutils'
    publishDir params.outdir, mode: 'copy'
    input:
    tuple val(id), path(reads)
    output:
    tuple val(id), path(\"${id}.txt\")
    script:
    \"\"\"
    cat $reads > ${id}.txt
    \"\"\"
}
process SUMMARY {
    input:
    path counts
    output:
    stdout
    script:
    \"\"\"
    cat $counts
    \"\"\"
}
workflow {
    pairs = channel.fromFilePairs(params.reads, checkIfExists: true)
    JOINED(pairs)
    SUMMARY(JOINED.out.map { id, f -> f }.collect())
    SUMMARY.out.view()
}
";

/// What stands after a bracket or the innermost name, and how often: parts, an operand of each level, and `?:`.
const AFTER: &[(&str, u32)] = &[
    (".a", 256),
    ("*a", 255),
    ("+a", 255),
    ("..a", 1),
    ("<a", 1),
    ("==a", 1),
    ("|a", 255),
    ("&&a", 255),
    ("||a", 255),
    ("?:a", 256),
];

/// A text so many times.
fn repeated(alloc: Global, part: &str, count: u32) -> Result<String, Fail> {
    let mut text = String::new(alloc);
    for _ in 0..count {
        text.push_str(part)?;
    }
    Ok(text)
}

/// So many brackets inside each other, each after 256 operators, and with 256 parts and a full chain of each kind after it.
pub fn deepest(alloc: Global, open: &str, close: &str, brackets: u32) -> Result<String, Fail> {
    let mut opens = repeated(alloc, "!-", 128)?;
    opens.push_str(open)?;
    let mut closes = String::from_str(alloc, close)?;
    for (part, count) in AFTER.iter().copied() {
        let parts = repeated(alloc, part, count)?;
        closes.push_str(parts.as_str())?;
    }
    let before = repeated(alloc, opens.as_str(), brackets)?;
    let after = repeated(alloc, closes.as_str(), brackets)?;
    Ok(format!(in alloc; "{before}a{after}")?)
}
