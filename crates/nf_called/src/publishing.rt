//! The directive `publishDir`.

ghost use Rattle.std.specs.Prelude.{◌≡◌, ◌∷◌, [], List, map, codes, OnOk};
ghost use Rattle.nf_builtins.specs.Natives.{is_among};
ghost use Rattle.nf_ast.specs.Tree.{Tree};
ghost use Rattle.nf_ast.specs.View.{trees, view, view_arg};
ghost use Rattle.nf_lowered.specs.Given.{Gives};
ghost use Rattle.nf_meaning.specs.Directives.{folder_in, folders, publish, with_arg, with_option};
ghost use Rattle.nf_called.specs.Publishing.{AddsFolder, IsOnly, IsPublish, Lacks, PublishGoes, and_folder};

use crate::formulas::Formulas;
use crate::leaves::{check_expression, stands_alone};
use nf_ast::{Arg, Expr};
use nf_eval::Closure;
use nf_meaning::LowerFault;
use nf_tasks::Publish;
use nf_value::{Place, Txt};
use std::alloc::Global;

/// A directive `publishDir` (Nextflow reference documentation, "Process", "publishDir"). `place` is that of its name.
///
/// # Errors
///
/// `BadOption` at the directive's name where it hasn't exactly one folder, and at the name of an option of another kind; the first fault of the
/// names in its expressions. `Mem` for want of memory.
pub(crate) fn publish<F: Formulas>(
    alloc: Global,
    formulas: &F,
    place: Place,
    args: &[Arg],
) -> Result<Publish, LowerFault>
    requires { F.keeps formulas.now }
    ensures { Gives (IsPublish (F.program formulas.now)) (publish (F.inside formulas.now) place
        (trees (map view_arg args.now))) result }
{
    check_folder(place, args)?;
    let mut so_far = PublishParts {
        place,
        folder: None,
        pattern: None,
    };
    for arg in args {
        so_far.add(alloc, formulas, arg)?;
    }
    let PublishParts {
        place,
        folder,
        pattern,
    } = so_far;
    let folder = folder.unwrap();
    Ok(Publish {
        place,
        folder,
        pattern,
    })
}

/// Whether there is one folder, which is no closure.
fn check_folder(place: Place, args: &[Arg]) -> Result<(), LowerFault>
    ensures { Gives (IsOnly (trees (map view_arg args.now))) (folder_in place (folders
        (trees (map view_arg args.now)))) result }
{
    let mut folder = None;
    for arg in args {
        folder = and_folder(place, folder, arg)?;
    }
    match folder {
        Some(folder) => check_expression(place, folder),
        None => Err(LowerFault::BadOption { place }),
    }
}

/// The one folder, with an argument more.
fn and_folder<'a>(
    place: Place,
    before: Option<&'a Expr>,
    arg: &'a Arg,
) -> Result<Option<&'a Expr>, LowerFault>
    ensures { AddsFolder place before.entry (view_arg arg.now) result }
{
    stands_alone(&arg.value);
    if arg.name.is_some() {
        return Ok(before);
    }
    match before {
        None => Ok(Some(&arg.value)),
        Some(_) => Err(LowerFault::BadOption { place }),
    }
}

/// What a directive has so far.
#[derive(Drop)]
pub(crate) struct PublishParts {
    pub(crate) place: Place,
    pub(crate) folder: Option<Closure>,
    pub(crate) pattern: Option<Closure>,
}

impl PublishParts {
    fn add<F: Formulas>(&mut self, alloc: Global, formulas: &F, arg: &Arg) -> Result<(), LowerFault>
        requires { F.keeps formulas.now }
        ensures meant { PublishGoes (F.program formulas.now) self.old
            (with_arg (F.inside formulas.now) (view_arg arg.now)) self.new result }
        ensures folder { OnOk result ((later : List Tree)
            → Lacks self.old.folder (and_folder (view_arg arg.now) later) → Lacks self.new.folder later) }
    {
        match &arg.name {
            Some((place, name)) => self.add_option(alloc, formulas, *place, name, &arg.value),
            None => {
                stands_alone(&arg.value);
                self.folder = Some(formulas.expression(alloc, &arg.value)?);
                Ok(())
            }
        }
    }

    /// Only `pattern` has an effect.
    fn add_option<F: Formulas>(
        &mut self,
        alloc: Global,
        formulas: &F,
        place: Place,
        name: &Txt,
        value: &Expr,
    ) -> Result<(), LowerFault>
        requires { F.keeps formulas.now }
        ensures meant { PublishGoes (F.program formulas.now) self.old
            (with_option (F.inside formulas.now) place name.now (view value.now)) self.new result }
        ensures folder { self.new.folder ≡ self.old.folder }
    {
        if name.as_str() == "pattern" {
            check_expression(place, value)?;
            self.pattern = Some(formulas.expression(alloc, value)?);
            return Ok(());
        }
        if is_without_effect(name.as_str()) {
            return Ok(());
        }
        Err(LowerFault::BadOption { place })
    }
}

/// Options that are read, and have no effect.
fn is_without_effect(name: &str) -> bool
    ensures { result ≡ is_among name.now (codes "mode" ∷ codes "overwrite" ∷ []) }
{
    "mode" == name || "overwrite" == name
}
