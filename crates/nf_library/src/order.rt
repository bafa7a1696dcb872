//! The functions of a script in an order in which each calls only those before it.

ghost use Rattle.std.specs.Prelude.{◌≡◌, ◌<◌, ◌++◌, [], true, List, length, not, IfOk, OnOk};
ghost use Rattle.std.specs.List.{filter};
ghost use Rattle.nf_ast.specs.View.{view_stmts};
ghost use Rattle.nf_callees.specs.Found.{defined_in};
ghost use Rattle.nf_eval.specs.Evaluation.{Definition};
ghost use Rattle.nf_eval.specs.Functions.{definition_of};
ghost use Rattle.nf_eval.specs.Memory.{definitions_of, patterns_of};
ghost use Rattle.nf_known.specs.Patterns.{HasTexts};
ghost use Rattle.nf_meaning.specs.Functions as spec;
ghost use Rattle.nf_library.specs.Calls.{is_ready};
ghost use Rattle.nf_library.specs.Stages.{GoesOn, IsStage, added, defined_by, if_chosen, top_functions};

use crate::texts::add_key;
use crate::waiting::Waiting;
use indexmap::IndexSet;
use nf_ast::{Function, Stmt, Top};
use nf_eval::Library;
use nf_value::{Mem, Place, Txt};
use std::alloc::Global;
use std::mem::replace;

/// Adds the functions of a script, each after those that it calls (own): in rounds, of which each adds, in the order of
/// the text, those that call only functions of the rounds before. A function that leads back to itself is never added.
/// Takes time by the number of functions in each round.
///
/// # Errors
///
/// `Mem` for want of memory.
pub(crate) fn add_in_order(alloc: Global, tops: &[Top], library: &mut Library) -> Result<(), Mem>
    requires { definitions_of library.old ≡ [] }
    ensures functions { OnOk result (definitions_of library.new ≡ spec.in_order (defined_in tops.now).functions) }
    ensures patterns { OnOk result (patterns_of library.new ≡ patterns_of library.old) }
{
    let left = functions_in(alloc, tops)?;
    let names = names_of(alloc, &left)?;
    add_rounds(alloc, left, &names, library)
}

/// Adds these functions, whose names are given, in rounds.
fn add_rounds<'a>(
    alloc: Global,
    mut left: Vec<Waiting<'a>>,
    names: &IndexSet<String>,
    library: &mut Library,
) -> Result<(), Mem>
    requires names { HasTexts names.now.keys (spec.names_of (defined_by left.items)) }
    requires none { definitions_of library.old ≡ [] }
    ensures functions { OnOk result (definitions_of library.new ≡ spec.in_order (defined_by left.entry.items)) }
    ensures patterns { OnOk result (patterns_of library.new ≡ patterns_of library.old) }
{
    let mut placed = IndexSet::new(alloc);
    'rounds: while !left.is_empty() {
        let had_one = round(alloc, &mut left, names, &mut placed, library)?;
        if !had_one {
            return Ok(());
        }
    }
    Ok(())
}

/// The functions of a script, in the order of the text.
fn functions_in<'a>(alloc: Global, tops: &'a [Top]) -> Result<Vec<Waiting<'a>>, Mem>
    ensures { IfOk result (λ fs. defined_by fs.items ≡ (defined_in tops.now).functions) }
{
    let mut all = Vec::new(alloc);
    for top in tops {
        add_top(alloc, top, &mut all)?;
    }
    Ok(all)
}

fn add_top<'a>(alloc: Global, top: &'a Top, all: &mut Vec<Waiting<'a>>) -> Result<(), Mem>
    ensures { OnOk result (defined_by all.new.items ≡ defined_by all.old.items ++ top_functions top.now) }
{
    match top {
        Top::Function(function) => {
            let one = Waiting::read(alloc, function)?;
            all.push(one)?;
            Ok(())
        }
        Top::Process(_) => Ok(()),
        Top::Workflow(_) => Ok(()),
        Top::Parameter(_) => Ok(()),
        Top::Println(_, _) => Ok(()),
        Top::Log(_, _, _, _) => Ok(()),
        Top::Dsl(_) => Ok(()),
    }
}

/// The names of functions.
fn names_of(alloc: Global, all: &[Waiting<'_>]) -> Result<IndexSet<String>, Mem>
    ensures { IfOk result (λ s. HasTexts s.keys (spec.names_of (defined_by all.now))) }
{
    let mut names = IndexSet::new(alloc);
    for one in all {
        add_key(alloc, &one.function.name, &mut names)?;
    }
    Ok(names)
}

/// Adds the functions of one round, which are then no longer left, and says whether there was one.
fn round<'a>(
    alloc: Global,
    left: &mut Vec<Waiting<'a>>,
    names: &IndexSet<String>,
    placed: &mut IndexSet<String>,
    library: &mut Library,
) -> Result<bool, Mem>
    ensures goes { IfOk result (λ more. (ds : List Definition)
        → IsStage ds names.now.keys placed.old.keys (defined_by left.old.items) library.old
        → GoesOn more ds names.now.keys placed.new.keys (defined_by left.new.items) library.new) }
    ensures fewer { IfOk result (λ more. more ≡ true → length left.new.items < length left.old.items) }
    ensures patterns { OnOk result (patterns_of library.new ≡ patterns_of library.old) }
{
    let all = replace(left, Vec::new(alloc));
    let mut ready = Vec::new(alloc);
    part_all(all, names, placed, &mut ready, left)?;
    if ready.is_empty() {
        return Ok(false);
    }
    place_all(alloc, &ready, placed, library)?;
    Ok(true)
}

/// Parts them: those that call no function of these names but those that are placed, and the others.
fn part_all<'a>(
    all: Vec<Waiting<'a>>,
    names: &IndexSet<String>,
    placed: &IndexSet<String>,
    ready: &mut Vec<Waiting<'a>>,
    rest: &mut Vec<Waiting<'a>>,
) -> Result<(), Mem>
    ensures ready { OnOk result (defined_by ready.new.items ≡ defined_by ready.old.items
        ++ filter (is_ready names.now.keys placed.now.keys) (defined_by all.entry.items)) }
    ensures rest { OnOk result (defined_by rest.new.items ≡ defined_by rest.old.items
        ++ filter (λ d. not (is_ready names.now.keys placed.now.keys d)) (defined_by all.entry.items)) }
{
    for one in all {
        let is_ready = one.is_ready(names, placed);
        part(one, is_ready, ready, rest)?;
    }
    Ok(())
}

fn part<'a>(
    one: Waiting<'a>,
    is_ready: bool,
    ready: &mut Vec<Waiting<'a>>,
    rest: &mut Vec<Waiting<'a>>,
) -> Result<(), Mem>
    ensures ready { OnOk result (defined_by ready.new.items ≡ defined_by ready.old.items
        ++ if_chosen is_ready (definition_of one.entry.function.now)) }
    ensures rest { OnOk result (defined_by rest.new.items ≡ defined_by rest.old.items
        ++ if_chosen (not is_ready) (definition_of one.entry.function.now)) }
{
    if is_ready {
        ready.push(one)?;
        return Ok(());
    }
    rest.push(one)?;
    Ok(())
}

/// Adds functions, in their order, and their names.
fn place_all(
    alloc: Global,
    ready: &[Waiting<'_>],
    placed: &mut IndexSet<String>,
    library: &mut Library,
) -> Result<(), Mem>
    ensures functions { OnOk result (definitions_of library.new
        ≡ added (defined_by ready.now) (definitions_of library.old)) }
    ensures placed { OnOk result (HasTexts placed.old.keys (spec.names_of (definitions_of library.old))
        → HasTexts placed.new.keys (spec.names_of (definitions_of library.new))) }
    ensures patterns { OnOk result (patterns_of library.new ≡ patterns_of library.old) }
{
    for one in ready {
        let function = copied(alloc, one.function)?;
        library.add_function(function)?;
        add_key(alloc, &one.function.name, placed)?;
    }
    Ok(())
}

/// A copy of a function.
fn copied(alloc: Global, function: &Function) -> Result<Function, Mem>
    ensures { IfOk result (λ f. definition_of f ≡ definition_of function.now) }
{
    let params = copy_params(alloc, &function.params)?;
    let body = copy_body(alloc, &function.body)?;
    Ok(Function {
        place: function.place,
        name_place: function.name_place,
        name: function.name.copy()?,
        params,
        body,
    })
}

fn copy_params(alloc: Global, params: &[(Place, Txt)]) -> Result<Vec<(Place, Txt)>, Mem>
    ensures { IfOk result (λ v. v.items ≡ params.now) }
{
    let mut copies = Vec::new(alloc);
    for (place, name) in params {
        copies.push((*place, name.copy()?))?;
    }
    Ok(copies)
}

fn copy_body(alloc: Global, stmts: &[Stmt]) -> Result<Vec<Stmt>, Mem>
    ensures { IfOk result (λ v. view_stmts v.items ≡ view_stmts stmts.now) }
{
    let mut copies = Vec::new(alloc);
    for stmt in stmts {
        copies.push(stmt.copy(alloc)?)?;
    }
    Ok(copies)
}
