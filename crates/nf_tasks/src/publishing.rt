//! Which files a task publishes.

ghost use Rattle.std.specs.Prelude.{◌≡◌, ◌++◌, map, option_map, filter, OnOk, IfOk};
ghost use Rattle.std.specs.List.{flat_map};
ghost use Rattle.nf_tasks.specs.Judged.{Adds, Answers};
ghost use Rattle.nf_tasks.specs.Memory.{formula_of, program, publish_of};
ghost use Rattle.nf_tasks.specs.Publishing.{is_published, pattern_by, published, published_by, target_in, targets_among, targets_in};

use crate::formulas::named_by;
use crate::process::Publish;
use crate::target_list::{Target, Targets};
use nf_builtins::Natives;
use nf_eval::Closure;
use nf_job::{FileRefs, TaskRefusal};
use nf_pattern::glob;
use nf_value::{FileRef, Mem, Place, Txt, Vals};
use std::alloc::Global;

/// What directives `publishDir` publish of these files, in their order.
///
/// # Errors
///
/// `Fault` with the first fault of an expression; `Mem` if there is no memory.
pub(crate) fn published<N: Natives>(
    alloc: Global,
    publishes: &[Publish],
    seen: &Vals,
    lists: &[FileRefs],
    natives: &N,
) -> Result<Targets, TaskRefusal>
    requires { N.keeps natives.now }
    ensures { Answers (published
        (map (publish_of (program (N.titles natives.now) (N.answer natives.now))) publishes.now) seen.now lists.now)
        result }
{
    let mut targets = Vec::new(alloc);
    for publish in publishes {
        push_published(alloc, &mut targets, publish, seen, lists, natives)?;
    }
    Ok(Targets::of(targets))
}

fn push_published<N: Natives>(
    alloc: Global,
    targets: &mut Vec<Target>,
    publish: &Publish,
    seen: &Vals,
    lists: &[FileRefs],
    natives: &N,
) -> Result<(), TaskRefusal>
    requires { N.keeps natives.now }
    ensures { Adds targets.old.items
        (published_by (publish_of (program (N.titles natives.now) (N.answer natives.now)) publish.now) seen.now
        lists.now) targets.new.items result }
{
    let folder = named_by(alloc, publish.place, &publish.folder, seen, natives)?;
    let pattern = pattern_by(alloc, publish.place, &publish.pattern, seen, natives)?;
    push_targets(alloc, targets, &folder, &pattern, lists)?;
    Ok(())
}

fn pattern_by<N: Natives>(
    alloc: Global,
    place: Place,
    pattern: &Option<Closure>,
    seen: &Vals,
    natives: &N,
) -> Result<Option<Txt>, TaskRefusal>
    requires { N.keeps natives.now }
    ensures { Answers (pattern_by place
        (option_map (formula_of (program (N.titles natives.now) (N.answer natives.now))) pattern.now) seen.now)
        result }
{
    match pattern {
        None => Ok(None),
        Some(formula) => Ok(Some(named_by(alloc, place, formula, seen, natives)?)),
    }
}

fn push_targets(
    alloc: Global,
    targets: &mut Vec<Target>,
    folder: &Txt,
    pattern: &Option<Txt>,
    lists: &[FileRefs],
) -> Result<(), Mem>
    ensures { OnOk result (targets.new.items ≡ targets.old.items ++ targets_in folder.now pattern.now lists.now) }
{
    for files in lists {
        push_among(alloc, targets, folder, pattern, files.items())?;
    }
    Ok(())
}

fn push_among(
    alloc: Global,
    targets: &mut Vec<Target>,
    folder: &Txt,
    pattern: &Option<Txt>,
    files: &[FileRef],
) -> Result<(), Mem>
    ensures { OnOk result (targets.new.items ≡ targets.old.items ++ targets_among folder.now pattern.now files.now) }
{
    for file in files {
        if is_published(pattern, file) {
            targets.push(target_in(alloc, folder, file)?)?;
        }
    }
    Ok(())
}

fn is_published(pattern: &Option<Txt>, file: &FileRef) -> bool
    ensures { result ≡ is_published pattern.now file.now }
{
    match pattern {
        None => true,
        Some(pattern) => glob(pattern.as_str(), file.name.as_str()),
    }
}

fn target_in(alloc: Global, folder: &Txt, file: &FileRef) -> Result<Target, Mem>
    ensures { IfOk result (λ t. t ≡ target_in folder.now file.now) }
{
    let mut path = String::from_str(alloc, folder.as_str())?;
    path.push_str("/")?;
    path.push_str(file.name.as_str())?;
    let name = Txt::of(path);
    let digest = file.digest;
    Ok(Target { name, digest })
}
