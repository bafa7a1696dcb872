//! Whether a script is accepted.

ghost use Rattle.std.specs.Prelude.{◌≡◌, ◌++◌, map, None, Some, IfOk, IfErr, OnOk};
ghost use Rattle.nf_ast.specs.Tops.{view_script, view_top, view_workflow_body};
ghost use Rattle.nf_ast.specs.Tree as tree;
ghost use Rattle.nf_ast.specs.View.{names, trees, view_closure, view_stmt, view_stmts};
ghost use Rattle.nf_order.specs.Accepted as spec;
ghost use Rattle.nf_order.specs.Accepted.{IsAccepted, BreaksFirst, first_broken};
ghost use Rattle.nf_order.specs.Fault.{IfRule};

use crate::around::Around;
use crate::fault::OrderFault;
use crate::natives::unknown_functions;
use crate::workflows::run;
use nf_ast::{ClosureBody, ClosureExpr, Function, Script, Stmt, Top, WorkflowBody};
use nf_kinds::{Broken, earliest};
use nf_slips::{add_process, add_shared, add_shared_in, entry};
use nf_value::{Mem, Place, Txt};
use std::alloc::Global;
use std::marker::Model;

/// A script that breaks no order rule. Contracts see the script.
pub struct Accepted {
    script: Script,
}

impl Drop for Accepted {
    fn drop(self) {
        let Accepted { script: _ } = self;
    }
}

impl Model for Accepted {
    ghost use Rattle.std.specs.Coded.{codes};
    ghost use Rattle.nf_ast.specs.declared.tops.Script.{Script};
    ghost use Rattle.nf_ast.specs.contracts.tops.Script as e;

    ghost Value = { Script };

    ghost view = { λ a. a.script };

    ghost coded = { Prim.hlevel (codes, e.the_row.coded) };
}

impl Accepted {
    /// The script.
    pub fn script(&self) -> &Script
        ensures { result.now ≡ self.now }
    {
        &self.script
    }
}

/// Accepts a script, unless an order rule is broken in it (own). The rules are judged in its functions, processes and
/// parameters, in its workflow without a name, and in each named workflow at each call that this leads to. So the time
/// is that of all these calls, each with a copy of the names of its body: where each of n workflows calls the next one
/// twice, a script of n workflows takes 2^n.
///
/// # Errors
///
/// `Rule` with the first place in the text at which a rule is broken, and at one place with the smaller rule. `Mem`
/// where there is no memory to check it.
pub fn check(alloc: Global, script: Script) -> Result<Accepted, OrderFault>
    ensures script { IfOk result (λ a. a ≡ script) }
    ensures accepted { OnOk result (IsAccepted (view_script script)) }
    ensures refused { IfErr result (λ e. IfRule e (BreaksFirst (view_script script))) }
    ensures none { OnOk result (first_broken (view_script script) ≡ None) }
    ensures first { IfErr result (λ e. IfRule e (λ f. first_broken (view_script script) ≡ Some f)) }
{
    let broken = all_broken(alloc, &script.tops)?;
    match earliest(&broken) {
        None => Ok(Accepted { script }),
        Some(Broken { rule, place }) => Err(OrderFault::Rule { rule, place }),
    }
}

/// All rules that are broken.
fn all_broken(alloc: Global, tops: &[Top]) -> Result<Vec<Broken>, Mem>
    ensures { IfOk result (λ v. v.items ≡ spec.all_broken (trees (map view_top tops.now))) }
{
    let mut broken = definitions_broken(alloc, tops)?;
    if let Some(body) = entry(tops) {
        from_entry(alloc, body, tops, &mut broken)?;
    }
    Ok(broken)
}

/// Adds the rules that are broken from the entry on.
fn from_entry(
    alloc: Global,
    body: &WorkflowBody,
    tops: &[Top],
    broken: &mut Vec<Broken>,
) -> Result<(), Mem>
    ensures { OnOk result (broken.new.items ≡ broken.old.items
        ++ spec.broken_from (Some (view_workflow_body body.now)) (trees (map view_top tops.now))) }
{
    let unknown = unknown_functions(alloc, tops)?;
    let around = Around {
        alloc,
        tops,
        within: &[],
        left: tops.len(),
        unknown: &unknown,
    };
    run(body, &[], &around, broken)?;
    Ok(())
}

/// The rules that functions, processes and parameters break.
fn definitions_broken(alloc: Global, tops: &[Top]) -> Result<Vec<Broken>, Mem>
    ensures { IfOk result (λ v. v.items ≡ spec.definitions_broken (trees (map view_top tops.now))) }
{
    let mut broken = Vec::new(alloc);
    for top in tops {
        add_definition(alloc, top, &mut broken)?;
    }
    Ok(broken)
}

/// Adds the rules that a function, a process or a parameter breaks.
fn add_definition(alloc: Global, top: &Top, broken: &mut Vec<Broken>) -> Result<(), Mem>
    ensures { OnOk result (broken.new.items ≡ broken.old.items ++ spec.definition_broken (view_top top.now)) }
{
    match top {
        Top::Function(function) => add_shared(alloc, &closure_of(alloc, function)?, broken),
        Top::Process(process) => add_process(alloc, process, broken),
        Top::Parameter(parameter) => add_shared_in(alloc, &parameter.value, broken),
        Top::Workflow(_) | Top::Println(_, _) | Top::Log(_, _, _, _) | Top::Dsl(_) => Ok(()),
    }
}

/// A function as the closure of its parameters and its body.
fn closure_of(alloc: Global, function: &Function) -> Result<ClosureExpr, Mem>
    ensures { IfOk result (λ c. view_closure c ≡ tree.closure function.now.place
        (tree.params (names function.now.params.items)) (view_stmts function.now.body.items)) }
{
    let params = copy_params(alloc, &function.params)?;
    let body = copy_body(alloc, &function.body)?;
    Ok(ClosureExpr::new(function.place, Some(params), ClosureBody::statements(body)))
}

fn copy_params(alloc: Global, params: &[(Place, Txt)]) -> Result<Vec<(Place, Txt)>, Mem>
    ensures { IfOk result (λ v. v.items ≡ params.now) }
{
    let mut copies = Vec::new(alloc);
    for (place, name) in params {
        copies.push((*place, name.copy()?))?;
    }
    Ok(copies)
}

fn copy_body(alloc: Global, stmts: &[Stmt]) -> Result<Vec<Stmt>, Mem>
    ensures { IfOk result (λ v. map view_stmt v.items ≡ map view_stmt stmts.now) }
{
    let mut copies = Vec::new(alloc);
    for stmt in stmts {
        copies.push(stmt.copy(alloc)?)?;
    }
    Ok(copies)
}
