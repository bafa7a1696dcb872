//! The text of what stands at the top of a script: workflows, functions, parameters, and lines of the script itself.

ghost use Rattle.std.specs.Prelude.{◌≡◌, ◌∷◌, [], ◌++◌, OnOk, map, codes};
ghost use Rattle.nf_ast.specs.View.{view, view_stmts, trees, names, name_tree};
ghost use Rattle.nf_ast.specs.Tree as tree;
ghost use Rattle.nf_value.specs.declared.place.Place.{Place};
ghost use Rattle.nf_ast.specs.Tops.{maybe, view_take, view_emit, view_emits, view_parts, view_section, view_workflow, view_workflow_body, view_function, view_parameter, view_top};
ghost use Rattle.nf_writer.specs.Ink as ink;
ghost use Rattle.nf_writer.specs.Ink.{inked};
ghost use Rattle.nf_printer.specs.Exprs.{inks};
ghost use Rattle.nf_writer.specs.Styles.{layout_of};
ghost use Rattle.nf_writer.specs.Lines.{outside};
ghost use Rattle.nf_printer.specs.Tops.{inside, part as part_of, headed, section as section_of, on_lines, body_section, maybe_name, workflow_parts, dsl, top as top_of, tops as tops_of, statements as statements_of};

use crate::closures::{put_assign, put_block, put_names, put_stmts};
use crate::exprs::put_expr;
use crate::processes::put_process;
use nf_ast::{Emit, Emits, Function, Parameter, Parts, Section, Take, Top, Workflow, WorkflowBody};
use nf_token::{Keyword, Mark};
use nf_value::{Mem, Place, Txt};
use nf_writer::{Margin, Writer};

/// The tops of a script, each with its line end, and an empty line between two.
pub fn put_tops(tops: &[Top], margin: &Margin, out: &mut Writer) -> Result<(), Mem>
    requires { layout_of margin.now ≡ outside }
    ensures { OnOk result (out.new ≡ out.old ++ inked (tops_of (trees (map view_top tops.now)) [])) }
{
    let mut more = false;
    for top in tops {
        if more {
            margin.before_first(out)?;
        }
        put_top(top, margin, out)?;
        margin.before_first(out)?;
        more = true;
    }
    Ok(())
}

/// One top, without its line end.
fn put_top(top: &Top, margin: &Margin, out: &mut Writer) -> Result<(), Mem>
    requires { layout_of margin.now ≡ outside }
    ensures { OnOk result (out.new ≡ out.old ++ inked (top_of (view_top top.now))) }
{
    match top {
        Top::Process(process) => put_process(process, margin, out),
        Top::Workflow(workflow) => put_workflow(workflow, margin, out),
        Top::Function(function) => put_function(function, margin, out),
        Top::Parameter(parameter) => put_parameter(parameter, margin, out),
        Top::Println(_, expr) => {
            out.name("println")?;
            out.blank()?;
            put_expr(expr, margin, false, out)
        }
        Top::Log(_, _, name, expr) => {
            out.name("log")?;
            out.mark(Mark::Dot)?;
            out.name(name.as_str())?;
            out.blank()?;
            put_expr(expr, margin, false, out)
        }
        Top::Dsl(_) => put_dsl(out),
    }
}

fn put_dsl(out: &mut Writer) -> Result<(), Mem>
    ensures { OnOk result (out.new ≡ out.old ++ inked dsl) }
{
    out.name("nextflow")?;
    out.mark(Mark::Dot)?;
    out.name("enable")?;
    out.mark(Mark::Dot)?;
    out.name("dsl")?;
    out.spaced(Mark::Equals)?;
    out.number(2)
}

fn put_parameter(parameter: &Parameter, margin: &Margin, out: &mut Writer) -> Result<(), Mem>
    requires { layout_of margin.now ≡ outside }
    ensures { OnOk result (out.new ≡ out.old ++ inked (top_of (view_parameter parameter.now))) }
{
    out.name("params")?;
    out.mark(Mark::Dot)?;
    put_assign(&parameter.name, &parameter.value, margin, out)
}

fn put_function(function: &Function, margin: &Margin, out: &mut Writer) -> Result<(), Mem>
    requires { layout_of margin.now ≡ outside }
    ensures { OnOk result (out.new ≡ out.old ++ inked (top_of (view_function function.now))) }
{
    out.keyword(Keyword::Def)?;
    out.blank()?;
    out.name(function.name.as_str())?;
    out.mark(Mark::OpenRound)?;
    put_names(&function.params, out)?;
    out.mark(Mark::CloseRound)?;
    out.blank()?;
    put_block(&function.body, margin, out)
}

// ---- workflows

fn put_workflow(workflow: &Workflow, margin: &Margin, out: &mut Writer) -> Result<(), Mem>
    requires { layout_of margin.now ≡ outside }
    ensures { OnOk result (out.new ≡ out.old ++ inked (top_of (view_workflow workflow.now))) }
{
    let inner = margin.deeper()?;
    out.name("workflow")?;
    put_workflow_name(&workflow.name, out)?;
    out.blank()?;
    out.mark(Mark::OpenBrace)?;
    put_workflow_body(&workflow.body, &inner, out)?;
    margin.after_last(out)?;
    out.mark(Mark::CloseBrace)
}

fn put_workflow_name(name: &Option<(Place, Txt)>, out: &mut Writer) -> Result<(), Mem>
    ensures { OnOk result (out.new ≡ out.old ++ inked (maybe_name (maybe name_tree name.now))) }
{
    match name {
        None => Ok(()),
        Some((_, name)) => {
            out.blank()?;
            out.name(name.as_str())
        }
    }
}

fn put_workflow_body(body: &WorkflowBody, margin: &Margin, out: &mut Writer) -> Result<(), Mem>
    requires { layout_of margin.now ≡ inside }
    ensures { OnOk result (out.new ≡ out.old ++ inked (workflow_parts (view_workflow_body body.now))) }
{
    match body {
        WorkflowBody::Statements(stmts) => put_stmts(stmts, false, margin, out),
        WorkflowBody::Parts(parts) => put_parts(parts, margin, out),
    }
}

fn put_parts(parts: &Parts, margin: &Margin, out: &mut Writer) -> Result<(), Mem>
    requires { layout_of margin.now ≡ inside }
    ensures { OnOk result (out.new ≡ out.old ++ inked (workflow_parts (view_parts parts.now))) }
{
    put_take(&parts.take, margin, out)?;
    put_section("main", &parts.main, margin, out)?;
    put_emits(&parts.emit, margin, out)
}

/// The word of a section and its colon, on a line of their own.
pub fn put_head(word: &str, margin: &Margin, out: &mut Writer) -> Result<(), Mem>
    requires { layout_of margin.now ≡ inside }
    ensures { OnOk result (out.new ≡ out.old ++ inked (headed word.now [])) }
{
    margin.before_first(out)?;
    out.name(word)?;
    out.mark(Mark::Colon)
}

/// A section of statements, after its word.
pub fn put_section(
    word: &str,
    section: &Section,
    margin: &Margin,
    out: &mut Writer,
) -> Result<(), Mem>
    requires { layout_of margin.now ≡ inside }
    ensures { OnOk result (out.new ≡ out.old ++ inked (body_section word.now (view_section section.now))) }
{
    put_head(word, margin, out)?;
    put_stmts(&section.body, false, margin, out)
}

fn put_take(take: &Option<Take>, margin: &Margin, out: &mut Writer) -> Result<(), Mem>
    requires { layout_of margin.now ≡ inside }
    ensures { OnOk result (out.new ≡ out.old ++ inked (section_of (codes "take") part_of (maybe view_take take.now))) }
{
    match take {
        None => Ok(()),
        Some(take) => {
            put_head("take", margin, out)?;
            put_taken(&take.names, margin, out)
        }
    }
}

fn put_taken(list: &[(Place, Txt)], margin: &Margin, out: &mut Writer) -> Result<(), Mem>
    requires { layout_of margin.now ≡ inside }
    ensures { OnOk result (out.new ≡ out.old ++ inked (on_lines part_of (names list.now))) }
{
    for (_, name) in list {
        margin.before_first(out)?;
        out.name(name.as_str())?;
    }
    Ok(())
}

fn put_emits(emits: &Option<Emits>, margin: &Margin, out: &mut Writer) -> Result<(), Mem>
    requires { layout_of margin.now ≡ inside }
    ensures { OnOk result (out.new ≡ out.old ++ inked (section_of (codes "emit") part_of (maybe view_emits emits.now))) }
{
    match emits {
        None => Ok(()),
        Some(emits) => {
            put_head("emit", margin, out)?;
            put_emit_list(&emits.emits, margin, out)
        }
    }
}

fn put_emit_list(emits: &[Emit], margin: &Margin, out: &mut Writer) -> Result<(), Mem>
    requires { layout_of margin.now ≡ inside }
    ensures { OnOk result (out.new ≡ out.old ++ inked (on_lines part_of (trees (map view_emit emits.now)))) }
{
    for emit in emits {
        margin.before_first(out)?;
        put_emit(emit, margin, out)?;
    }
    Ok(())
}

fn put_emit(emit: &Emit, margin: &Margin, out: &mut Writer) -> Result<(), Mem>
    requires { layout_of margin.now ≡ inside }
    ensures { OnOk result (out.new ≡ out.old ++ inked (part_of (view_emit emit.now))) }
{
    match emit {
        Emit::Named(_, name, expr) => put_assign(name, expr, margin, out),
        Emit::Alone(expr) => put_expr(expr, margin, false, out),
    }
}
