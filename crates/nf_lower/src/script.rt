//! The whole of a script: its plan, and the paths whose files it reads.

ghost use Rattle.std.specs.Prelude.{◌≡◌, map};
ghost use Rattle.nf_ast.specs.Tops.{view_script};
ghost use Rattle.nf_calling.specs.Settings.{IsSettingOf};
ghost use Rattle.nf_callees.specs.Found.{defined_in};
ghost use Rattle.nf_eval.specs.Memory.{definitions_of as functions_in};
ghost use Rattle.nf_found.specs.All.{found_of};
ghost use Rattle.nf_meaning.specs.CallPaths.{NamesArePlain};
ghost use Rattle.nf_meaning.specs.Functions.{in_order};
ghost use Rattle.nf_meaning.specs.Given.{Given};
ghost use Rattle.nf_meaning.specs.Script.{definitions_of};
ghost use Rattle.nf_tasks.specs.Memory.{program};
ghost use Rattle.nf_lower.specs.Reads.{HasRead};
ghost use Rattle.nf_lower.specs.Script.{LowersTo, OverPatterns, WantsAll, given_of};

use crate::entry::plan_of;
use crate::found::by_path;
use crate::outside::Outside;
use nf_around::Surroundings;
use nf_ast::{Script, Top};
use nf_builtins::Natives;
use nf_calling::{Setting, walker_of};
use nf_eval::Library;
use nf_found::Found;
use nf_library::Shelf;
use nf_meaning::LowerFault;
use nf_meaning::laws::text_alone;
use nf_plan::{Plan, Want};
use std::alloc::Global;
use std::mem::replace;

/// The plan of a script, whose graph means what the script means under all outcomes of its tasks: the same views, targets,
/// tasks, deliveries and faults (Nextflow reference documentation, "Workflows"; the order of the faults is own).
///
/// # Errors
///
/// The script's first fault, which it has under all outcomes of its tasks. `Mem` for want of memory.
pub fn lower<N: Natives>(
    alloc: Global,
    script: &Script,
    outside: &Outside<'_>,
    natives: &N,
) -> Result<Plan, LowerFault>
    requires kept { N.keeps natives.now }
    requires names { NamesArePlain (definitions_of (view_script script.now)) }
    ensures { OverPatterns (view_script script.now) (λ built large. LowersTo (given_of script.now outside.now
        (program (N.titles natives.now) (N.answer natives.now)) built large) result) }
{
    let Shelf { library, texts } = Shelf::of_script(alloc, &script.tops)?;
    let setting = Setting {
        tops: &script.tops,
        texts: &texts,
        params: outside.params,
        folder: outside.folder,
        natives,
    };
    plan_in(alloc, &setting, library, outside.found)
}

/// The plan of a script in its setting, with these files.
fn plan_in<'a, N: Natives>(
    alloc: Global,
    setting: &Setting<'a, N>,
    library: Library,
    found: &'a [Found],
) -> Result<Plan, LowerFault>
    requires kept { N.keeps setting.now.natives.now }
    requires names { NamesArePlain (defined_in setting.now.tops.now) }
    requires functions { functions_in library ≡ in_order (defined_in setting.now.tops.now).functions }
    requires given { (g : Given) × IsSettingOf N.titles N.answer setting.now library g }
    ensures { (g : Given) → IsSettingOf N.titles N.answer setting.now library g → map found_of found.now ≡ g.found
        → LowersTo g result }
{
    let around = setting.surroundings(alloc, library)?;
    plan_with(alloc, setting.tops, around, found)
}

/// The plan of a script whose top is read, with these files.
fn plan_with<'a, N: Natives>(
    alloc: Global,
    tops: &[Top],
    around: Surroundings<'a, N>,
    found: &'a [Found],
) -> Result<Plan, LowerFault>
    requires kept { N.keeps around.natives.now }
    requires names { NamesArePlain (defined_in tops.now) }
    requires given { (g : Given) × HasRead N.titles N.answer tops.now around g }
    ensures { (g : Given) → HasRead N.titles N.answer tops.now around.entry g → map found_of found.now ≡ g.found → LowersTo g result }
{
    let files = by_path(alloc, found)?;
    let walker = walker_of(alloc, tops, &around, &files);
    plan_of(&walker, tops)
}

/// The paths whose files a script's sources read, in the order of the text along its calls (Nextflow reference documentation,
/// "Channel factories"). The files of `outside` aren't looked at.
///
/// # Errors
///
/// The script's first fault, which it has whatever files are found. `Mem` for want of memory.
pub fn wanted<N: Natives>(
    alloc: Global,
    script: &Script,
    outside: &Outside<'_>,
    natives: &N,
) -> Result<Vec<Want>, LowerFault>
    requires kept { N.keeps natives.now }
    requires names { NamesArePlain (definitions_of (view_script script.now)) }
    ensures { OverPatterns (view_script script.now) (λ built large. WantsAll (given_of script.now outside.now
        (program (N.titles natives.now) (N.answer natives.now)) built large) result) }
{
    text_alone();
    let unread = Outside {
        params: outside.params,
        folder: outside.folder,
        found: &[],
    };
    let plan = lower(alloc, script, &unread, natives)?;
    Ok(wants_in(alloc, plan))
}

/// The paths of a plan.
fn wants_in(alloc: Global, plan: Plan) -> Vec<Want>
    ensures { result ≡ plan.wants }
{
    let mut plan = plan;
    replace(&mut plan.wants, Vec::new(alloc))
}
