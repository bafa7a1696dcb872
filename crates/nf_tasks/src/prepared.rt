//! What an attempt at a task is made of.

ghost use Rattle.std.specs.Prelude.{◌≡◌, [], map, option_map, IfOk};
ghost use Rattle.nf_value.specs.View.{plain_of};
ghost use Rattle.nf_tasks.specs.Judged.{Adds, Answers, AnswersBy};
ghost use Rattle.nf_tasks.specs.Inputs.{bound_by};
ghost use Rattle.nf_tasks.specs.Clash.{first_clash, unclashing};
ghost use Rattle.nf_tasks.specs.Meaning.{part_patterns, parts_in as meant_parts, parts_patterns, patterns_in};
ghost use Rattle.nf_tasks.specs.Memory.{program, formula_of, process_of, output_of, part_of};
ghost use Rattle.nf_tasks.specs.Prepared.{cpus_of, prepared_of, prepared_with, seen_by, script_of, tag_of, text_in, texts_of};

use crate::clash::first_clash;
use crate::formulas::{evaluated, named_by, wrong_kind};
use crate::inputs::{Bound, bind};
use crate::process::{Output, OutputPart, ProcessSpec, TaskScript, parts_in};
use crate::script::script_text;
use crate::task::seen_values;
use nf_builtins::Natives;
use nf_eval::Closure;
use nf_job::{FileRefs, TaskFault, TaskRefusal, Txts};
use nf_value::{Mem, Place, Txt, Vals, Value, text_of};
use std::alloc::Global;

/// All that is known of an attempt at a task once its faults are judged.
#[derive(Drop)]
pub struct Prepared {
    /// The values that its expressions see.
    pub(crate) seen: Vals,
    pub(crate) stdin: Option<Txt>,
    pub(crate) staged: FileRefs,
    pub(crate) tag: Option<Txt>,
    pub(crate) script: Txt,
    pub(crate) patterns: Txts,
}

/// What an attempt is made of. Its faults are judged in this order: the inputs, `cpus`, `tag`, clashes of staged files, the script, the
/// patterns of outputs (own).
///
/// # Errors
///
/// `Fault` with the first fault; `Mem` if there is no memory.
pub(crate) fn prepare<N: Natives>(
    alloc: Global,
    spec: &ProcessSpec,
    inputs: &Vals,
    attempt: u32,
    natives: &N,
) -> Result<Prepared, TaskRefusal>
    requires { N.keeps natives.now }
    ensures { Answers (prepared_of (process_of (program (N.titles natives.now) (N.answer natives.now)) spec.now)
        inputs.now attempt) result }
{
    let bound = bind(alloc, spec, inputs)?;
    let seen = seen_by(alloc, spec, &bound.values, attempt, natives)?;
    prepare_with(alloc, spec, bound, seen, natives)
}

fn prepare_with<N: Natives>(
    alloc: Global,
    spec: &ProcessSpec,
    bound: Bound,
    seen: Vals,
    natives: &N,
) -> Result<Prepared, TaskRefusal>
    requires { N.keeps natives.now }
    ensures { Answers (prepared_with (process_of (program (N.titles natives.now) (N.answer natives.now)) spec.now)
        bound seen) result }
{
    let tag = tag_text(alloc, &spec.tag, &seen, natives)?;
    let staged = unclashing(alloc, bound.staged)?;
    let script = script_of(alloc, &spec.script, &seen, natives)?;
    let patterns = patterns(alloc, &spec.outputs, &seen, natives)?;
    Ok(Prepared {
        seen,
        stdin: bound.stdin,
        staged,
        tag,
        script,
        patterns,
    })
}

/// The values that the expressions of an attempt see, but for that in `cpus`.
pub(crate) fn seen_by<N: Natives>(
    alloc: Global,
    spec: &ProcessSpec,
    values: &Vals,
    attempt: u32,
    natives: &N,
) -> Result<Vals, TaskRefusal>
    requires { N.keeps natives.now }
    ensures { Answers (seen_by (process_of (program (N.titles natives.now) (N.answer natives.now)) spec.now) attempt
        values.now) result }
{
    let before = seen_values(alloc, values, &spec.name, attempt, Value::Null)?;
    let cpus = cpus_value(alloc, &spec.cpus, &before, natives)?;
    Ok(seen_values(alloc, values, &spec.name, attempt, cpus)?)
}

fn cpus_value<N: Natives>(
    alloc: Global,
    cpus: &Option<Closure>,
    seen: &Vals,
    natives: &N,
) -> Result<Value, TaskRefusal>
    requires { N.keeps natives.now }
    ensures { AnswersBy plain_of
        (cpus_of (option_map (formula_of (program (N.titles natives.now) (N.answer natives.now))) cpus.now) seen.now)
        result }
{
    match cpus {
        None => Ok(Value::Int(1)),
        Some(formula) => evaluated(alloc, formula, seen, natives),
    }
}

/// The text of the tag, if there is one.
pub(crate) fn tag_text<N: Natives>(
    alloc: Global,
    tag: &Option<Closure>,
    seen: &Vals,
    natives: &N,
) -> Result<Option<Txt>, TaskRefusal>
    requires { N.keeps natives.now }
    ensures { Answers (tag_of
        (option_map (formula_of (program (N.titles natives.now) (N.answer natives.now))) tag.now) seen.now) result }
{
    let Some(formula) = tag else {
        return Ok(None);
    };
    let value = evaluated(alloc, formula, seen, natives)?;
    let text = text_of(alloc, &value)?;
    Ok(Some(text))
}

/// The files, if no name of theirs stood before.
pub(crate) fn unclashing(alloc: Global, files: FileRefs) -> Result<FileRefs, TaskRefusal>
    ensures { Answers (unclashing files) result }
{
    match clash(alloc, &files)? {
        None => Ok(files),
        Some(name) => Err(TaskRefusal::Fault(TaskFault::StageClash { name })),
    }
}

fn clash(alloc: Global, files: &FileRefs) -> Result<Option<Txt>, Mem>
    ensures { IfOk result (λ n. n ≡ first_clash [] files.now) }
{
    match first_clash(alloc, files.items())? {
        None => Ok(None),
        Some(file) => Ok(Some(file.name.copy()?)),
    }
}

fn script_of<N: Natives>(
    alloc: Global,
    script: &TaskScript,
    seen: &Vals,
    natives: &N,
) -> Result<Txt, TaskRefusal>
    requires { N.keeps natives.now }
    ensures { Answers (script_of script.now.place
        (formula_of (program (N.titles natives.now) (N.answer natives.now)) script.now.body) seen.now) result }
{
    let value = evaluated(alloc, &script.body, seen, natives)?;
    text_in(alloc, script.place, &value)
}

fn text_in(alloc: Global, place: Place, value: &Value) -> Result<Txt, TaskRefusal>
    ensures { Answers (text_in place (plain_of value.now)) result }
{
    match value {
        Value::Text(text) => Ok(script_text(alloc, text.as_str())?),
        _ => Err(wrong_kind(place)),
    }
}

/// The texts of the patterns of all `path` outputs, in their order.
fn patterns<N: Natives>(
    alloc: Global,
    outputs: &[Output],
    seen: &Vals,
    natives: &N,
) -> Result<Txts, TaskRefusal>
    requires { N.keeps natives.now }
    ensures { Answers (texts_of
        (patterns_in (map (output_of (program (N.titles natives.now) (N.answer natives.now))) outputs.now)) seen.now)
        result }
{
    let mut texts = Vec::new(alloc);
    for output in outputs {
        push_patterns(alloc, &mut texts, output, seen, natives)?;
    }
    Ok(Txts::of(texts))
}

fn push_patterns<N: Natives>(
    alloc: Global,
    texts: &mut Vec<Txt>,
    output: &Output,
    seen: &Vals,
    natives: &N,
) -> Result<(), TaskRefusal>
    requires { N.keeps natives.now }
    ensures { let meant = output_of (program (N.titles natives.now) (N.answer natives.now)) output.now in Adds
        texts.old.items (texts_of (parts_patterns meant.place (meant_parts meant.shape)) seen.now) texts.new.items
        result }
{
    for part in parts_in(&output.shape) {
        push_pattern(alloc, texts, output.place, part, seen, natives)?;
    }
    Ok(())
}

fn push_pattern<N: Natives>(
    alloc: Global,
    texts: &mut Vec<Txt>,
    place: Place,
    part: &OutputPart,
    seen: &Vals,
    natives: &N,
) -> Result<(), TaskRefusal>
    requires { N.keeps natives.now }
    ensures { Adds texts.old.items
        (texts_of (part_patterns place (part_of (program (N.titles natives.now) (N.answer natives.now)) part.now))
        seen.now) texts.new.items result }
{
    let OutputPart::Path(pattern) = part else {
        return Ok(());
    };
    let text = named_by(alloc, place, pattern, seen, natives)?;
    texts.push(text)?;
    Ok(())
}
