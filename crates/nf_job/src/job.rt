//! `Job`: the parts of one attempt at a task, their text and its key.

ghost use Rattle.std.specs.Prelude.{◌≡◌, ◌≤◌, ◌<◌, ◌^◌, [], ◌∷◌, ◌++◌, IfOk, OnOk, pos, map, length, option_copied, codes};
ghost use Rattle.sha2.specs.Sha256.{sha256};
ghost use Rattle.nf_value.specs.View.{plain_of};
ghost use Rattle.nf_value.specs.Plain.{text, int};
ghost use Rattle.nf_job.specs.JobText.{stdin_plain, files_plain, texts_plain, five_items, nine_items, job_text, old_text_of, inputs_text};
ghost use Rattle.nf_job.specs.Sizes.{IsSized};

use crate::files::FileRefs;
use crate::parts::JobParts;
use crate::texts::Txts;
use nf_codec::encode_text;
use nf_value::{Digest, Mem, Txt, Vals, Value};
use sha2::{Digest as Hasher, Sha256};
use std::alloc::Global;
use std::marker::Model;

/// A job in the older form, whose text has no attempt (own). Contracts see its text.
pub struct OldJob {
    text: Txt,
    key: Digest,
}

impl Drop for OldJob {
    fn drop(self) {
        let OldJob { text: _, key: _ } = self;
    }
}

impl Model for OldJob {
    ghost use Rattle.std.specs.Prelude.{◌≡◌, List, ℕ};
    ghost use Rattle.sha2.specs.Sha256.{sha256};

    ghost Value = { List ℕ };

    ghost view = { λ j. j.text };

    ghost invariant = { λ j. j.key.0 ≡ sha256 j.text };
}

impl OldJob {
    fn of(text: Txt) -> OldJob
        ensures { result ≡ text }
    {
        let key = digest_of(&text);
        OldJob { text, key }
    }

    /// The text. Takes no memory.
    pub fn text(&self) -> &Txt
        ensures { result.now ≡ self.now }
    {
        &self.text
    }

    /// The SHA-256 digest of the text (FIPS 180-4). Takes no memory.
    pub fn key(&self) -> &Digest
        ensures { result.now.0 ≡ sha256 self.now }
    {
        &self.key
    }
}

/// One attempt at a task (own): its parts, the text that spells them, and its key, the SHA-256 digest of that text.
///
/// The text is the code (`nf_codec`) of a list of ten items: the text `nfjob2`, the process, the script, the inputs, the standard
/// input or null, the list of staged files, the list of patterns, whether standard output is wanted, the number, the attempt.
/// Contracts see the parts; all the rest follows from them.
pub struct Job {
    parts: JobParts,
    text: Txt,
    key: Digest,
    old: Option<OldJob>,
}

impl Drop for Job {
    fn drop(self) {
        let Job {
            parts: _,
            text: _,
            key: _,
            old: _,
        } = self;
    }
}

impl Model for Job {
    ghost use Rattle.nf_job.specs.declared.parts.JobParts.{JobParts};

    ghost Value = { JobParts };

    ghost use Rattle.nf_job.specs.Kept.{parts_of, IsKept};

    ghost view = { parts_of };

    ghost invariant = { IsKept };
}

impl Job {
    /// The parts of the job. Takes no memory.
    pub fn parts(&self) -> &JobParts
        ensures same { result.now ≡ self.now }
        ensures sized { IsSized self.now }
    {
        &self.parts
    }

    /// The text of the job. Takes no memory.
    pub fn text(&self) -> &Txt
        ensures { result.now ≡ job_text self.now }
    {
        &self.text
    }

    /// The SHA-256 digest of the text (FIPS 180-4). Takes no memory.
    pub fn key(&self) -> &Digest
        ensures { result.now.0 ≡ sha256 (job_text self.now) }
    {
        &self.key
    }

    /// The job in the older form. Its text is the code of the first nine items, with `nfjob1` in place of `nfjob2`. Only a first
    /// attempt has one. Takes no memory.
    pub fn old(&self) -> Option<&OldJob>
        ensures { option_copied result ≡ old_text_of self.now }
    {
        self.old.as_ref()
    }
}

/// The job of these parts. The attempt is from 1 to 101. The sizes of the parts fit 64 bits, as the laws on jobs require.
///
/// # Errors
///
/// `Mem` if there is no memory for it.
pub fn make_job(alloc: Global, parts: JobParts) -> Result<Job, Mem>
    requires first { 1 ≤ parts.attempt }
    requires last { parts.attempt ≤ 101 }
    ensures parts { IfOk result (λ j. j ≡ parts) }
    ensures sized { OnOk result (IsSized parts) }
{
    let old = old_job(alloc, &parts)?;
    let text = new_text(alloc, &parts)?;
    let key = digest_of(&text);
    Ok(Job {
        parts,
        text,
        key,
        old,
    })
}

fn digest_of(text: &Txt) -> Digest
    ensures { result.0 ≡ sha256 text.now }
{
    Digest(Sha256::digest(text.as_str().as_bytes()))
}

fn new_text(alloc: Global, parts: &JobParts) -> Result<Txt, Mem>
    ensures text { IfOk result (λ t. t ≡ job_text parts.now) }
    ensures sized { IfOk result (λ _. IsSized parts.now) }
{
    let mut items = nine(alloc, "nfjob2", parts)?;
    push_number(&mut items, parts.attempt)?;
    let text = list_code(alloc, items)?;
    Ok(text)
}

fn old_job(alloc: Global, parts: &JobParts) -> Result<Option<OldJob>, Mem>
    ensures { IfOk result (λ o. o ≡ old_text_of parts.now) }
{
    if parts.attempt != 1 {
        return Ok(None);
    }
    let items = nine(alloc, "nfjob1", parts)?;
    let text = list_code(alloc, items)?;
    Ok(Some(OldJob::of(text)))
}

fn list_code(alloc: Global, items: Vec<Value>) -> Result<Txt, Mem>
    ensures { IfOk result (λ t. t ≡ inputs_text (map plain_of items.items)) }
{
    encode_text(alloc, &Value::List(Vals::of(items)))
}

fn nine(alloc: Global, form: &str, parts: &JobParts) -> Result<Vec<Value>, Mem>
    ensures items { IfOk result (λ v. map plain_of v.items ≡ nine_items form.now parts.now) }
    ensures process { IfOk result (λ _. length parts.now.process < 2 ^ 64) }
    ensures script { IfOk result (λ _. length parts.now.script < 2 ^ 64) }
    ensures inputs { IfOk result (λ _. length parts.now.inputs < 2 ^ 64) }
    ensures n { IfOk result (λ _. parts.now.n < 2 ^ 64) }
{
    let mut items = Vec::new(alloc);
    push_text(&mut items, form)?;
    push_text(&mut items, parts.process.as_str())?;
    push_text(&mut items, parts.script.as_str())?;
    push_text(&mut items, parts.inputs.as_str())?;
    push_others(&mut items, parts)?;
    Ok(items)
}

fn push_others(items: &mut Vec<Value>, parts: &JobParts) -> Result<(), Mem>
    ensures items { OnOk result (map plain_of items.new.items ≡ map plain_of items.old.items ++ five_items parts.now) }
    ensures n { OnOk result (parts.now.n < 2 ^ 64) }
{
    let alloc = *items.allocator();
    push(items, stdin_value(&parts.stdin)?)?;
    push(items, files_value(alloc, &parts.staged)?)?;
    push(items, texts_value(alloc, &parts.patterns)?)?;
    push(items, Value::Truth(parts.wants_stdout))?;
    push_number(items, parts.n)?;
    Ok(())
}

fn push(items: &mut Vec<Value>, value: Value) -> Result<(), Mem>
    ensures { OnOk result (map plain_of items.new.items ≡ map plain_of items.old.items ++ plain_of value ∷ []) }
{
    items.push(value)?;
    Ok(())
}

fn push_number(items: &mut Vec<Value>, number: u32) -> Result<(), Mem>
    ensures items { OnOk result (map plain_of items.new.items ≡ map plain_of items.old.items ++ int (pos number) ∷ []) }
    ensures sized { number < 2 ^ 64 }
{
    push(items, Value::Int(i64::from(number)))
}

fn push_text(items: &mut Vec<Value>, from: &str) -> Result<(), Mem>
    ensures items { OnOk result (map plain_of items.new.items ≡ map plain_of items.old.items ++ text from.now ∷ []) }
    ensures sized { length from.now < 2 ^ 64 }
{
    let copy = String::from_str(*items.allocator(), from)?;
    push(items, Value::Text(Txt::of(copy)))
}

fn stdin_value(stdin: &Option<Txt>) -> Result<Value, Mem>
    ensures { IfOk result (λ v. plain_of v ≡ stdin_plain stdin.now) }
{
    match stdin {
        None => Ok(Value::Null),
        Some(stdin) => Ok(Value::Text(stdin.copy()?)),
    }
}

fn files_value(alloc: Global, files: &FileRefs) -> Result<Value, Mem>
    ensures { IfOk result (λ v. plain_of v ≡ files_plain files.now) }
{
    let mut values = Vec::new(alloc);
    for file in files.items() {
        values.push(Value::of_file(alloc, file.copy()?)?)?;
    }
    Ok(Value::List(Vals::of(values)))
}

fn texts_value(alloc: Global, texts: &Txts) -> Result<Value, Mem>
    ensures { IfOk result (λ v. plain_of v ≡ texts_plain texts.now) }
{
    let mut values = Vec::new(alloc);
    for text in texts.items() {
        values.push(Value::Text(text.copy()?))?;
    }
    Ok(Value::List(Vals::of(values)))
}
