//! The text of processes.

ghost use Rattle.std.specs.Prelude.{◌≡◌, ◌∷◌, [], ◌++◌, OnOk, map, codes, if◌then◌else◌};
ghost use Rattle.nf_ast.specs.View.{view, view_arg, view_label, trees};
ghost use Rattle.nf_ast.specs.Tops.{maybe, view_process, view_directive, view_input_part, view_input, view_inputs, view_output_part, view_output_value, view_output, view_outputs, view_task, view_section};
ghost use Rattle.nf_writer.specs.Ink as ink;
ghost use Rattle.nf_writer.specs.Ink.{inked};
ghost use Rattle.nf_printer.specs.Exprs.{comma, listed};
ghost use Rattle.nf_writer.specs.Styles.{layout_of};
ghost use Rattle.nf_printer.specs.Levels.{begins_round as begins_round_of};
ghost use Rattle.nf_printer.specs.Tops.{args_before, inside, top as top_of, directive as directive_of, directive_args, on_lines, section as section_of, body_section, some_value, value_part, value_parts, output as output_of, task as task_of, process_head, process_parts, first_begins_round};
ghost use Rattle.nf_writer.specs.Lines.{outside};

use crate::closures::put_labelled;
use crate::exprs::{put_args, put_comma, put_expr};
use crate::leading::{begins_round, is_expression};
use crate::tops::{put_head, put_section};
use nf_ast::{
    Arg, Directive, Input, InputPart, Inputs, Label, Output, OutputPart, OutputValue, Outputs,
    Process, Section, Task,
};
use nf_token::Mark;
use nf_value::{Mem, Txt};
use nf_writer::{Margin, Writer};

/// A process.
pub fn put_process(process: &Process, margin: &Margin, out: &mut Writer) -> Result<(), Mem>
    requires { layout_of margin.now ≡ outside }
    ensures { OnOk result (out.new ≡ out.old ++ inked (top_of (view_process process.now))) }
{
    let inner = margin.deeper()?;
    put_process_lines(process, margin, &inner, out)
}

fn put_process_lines(
    process: &Process,
    margin: &Margin,
    inner: &Margin,
    out: &mut Writer,
) -> Result<(), Mem>
    requires around { layout_of margin.now ≡ outside }
    requires within { layout_of inner.now ≡ inside }
    ensures { OnOk result (out.new ≡ out.old ++ inked (top_of (view_process process.now))) }
{
    put_process_head(process, out)?;
    put_process_parts(process, inner, out)?;
    margin.after_last(out)?;
    out.mark(Mark::CloseBrace)
}

fn put_process_head(process: &Process, out: &mut Writer) -> Result<(), Mem>
    ensures { OnOk result (out.new ≡ out.old ++ inked (process_head process.now.name)) }
{
    out.name("process")?;
    out.blank()?;
    out.name(process.name.as_str())?;
    out.blank()?;
    out.mark(Mark::OpenBrace)
}

fn put_process_parts(process: &Process, margin: &Margin, out: &mut Writer) -> Result<(), Mem>
    requires { layout_of margin.now ≡ inside }
    ensures { OnOk result (out.new ≡ out.old ++ inked (process_parts (trees (map view_directive process.now.directives.items)) (maybe view_inputs process.now.inputs) (maybe view_outputs process.now.outputs) (view_task process.now.task) (maybe view_section process.now.stub))) }
{
    put_directives(&process.directives, margin, out)?;
    put_inputs(&process.inputs, margin, out)?;
    put_outputs(&process.outputs, margin, out)?;
    put_task(&process.task, margin, out)?;
    put_stub(&process.stub, margin, out)
}

// ---- directives

fn put_directives(directives: &[Directive], margin: &Margin, out: &mut Writer) -> Result<(), Mem>
    requires { layout_of margin.now ≡ inside }
    ensures { OnOk result (out.new ≡ out.old ++ inked (on_lines directive_of (trees (map view_directive directives.now)))) }
{
    for directive in directives {
        margin.before_first(out)?;
        put_directive(directive, margin, out)?;
    }
    Ok(())
}

fn put_directive(directive: &Directive, margin: &Margin, out: &mut Writer) -> Result<(), Mem>
    requires { layout_of margin.now ≡ inside }
    ensures { OnOk result (out.new ≡ out.old ++ inked (directive_of (view_directive directive.now))) }
{
    out.name(directive.name.as_str())?;
    put_directive_args(&directive.args, margin, out)
}

/// The arguments of a directive, in brackets only where they would begin with `(`.
fn put_directive_args(args: &[Arg], margin: &Margin, out: &mut Writer) -> Result<(), Mem>
    requires { layout_of margin.now ≡ inside }
    ensures { OnOk result (out.new ≡ out.old ++ inked (directive_args (trees (map view_arg args.now)))) }
{
    put_args_before(args, out)?;
    put_args(args, margin, out)?;
    out.close_round(args_begin_round(args))
}

/// What stands before the arguments of a directive: `(` where they would begin with one, else a blank.
fn put_args_before(args: &[Arg], out: &mut Writer) -> Result<(), Mem>
    ensures { OnOk result (out.new ≡ out.old ++ inked (args_before (trees (map view_arg args.now)))) }
{
    match args {
        [] => Ok(()),
        [arg, ..] => put_arg_before(arg_begins_round(arg), out),
    }
}

fn put_arg_before(brackets: bool, out: &mut Writer) -> Result<(), Mem>
    ensures { OnOk result (out.new ≡ out.old ++ inked (if brackets then ink.mark Mark.OpenRound ∷ [] else ink.blank ∷ [])) }
{
    if brackets {
        out.mark(Mark::OpenRound)
    } else {
        out.blank()
    }
}

fn args_begin_round(args: &[Arg]) -> bool
    ensures { result ≡ first_begins_round (trees (map view_arg args.now)) }
{
    match args {
        [] => false,
        [arg, ..] => arg_begins_round(arg),
    }
}

fn arg_begins_round(arg: &Arg) -> bool
    ensures { result ≡ begins_round_of (view_arg arg.now) }
{
    match &arg.name {
        Some(_) => false,
        None => begins_round(&arg.value),
    }
}

// ---- inputs

fn put_inputs(inputs: &Option<Inputs>, margin: &Margin, out: &mut Writer) -> Result<(), Mem>
    requires { layout_of margin.now ≡ inside }
    ensures { OnOk result (out.new ≡ out.old ++ inked (section_of (codes "input") some_value (maybe view_inputs inputs.now))) }
{
    match inputs {
        None => Ok(()),
        Some(inputs) => {
            put_head("input", margin, out)?;
            put_input_list(&inputs.inputs, margin, out)
        }
    }
}

fn put_input_list(inputs: &[Input], margin: &Margin, out: &mut Writer) -> Result<(), Mem>
    requires { layout_of margin.now ≡ inside }
    ensures { OnOk result (out.new ≡ out.old ++ inked (on_lines some_value (trees (map view_input inputs.now)))) }
{
    for input in inputs {
        margin.before_first(out)?;
        put_input(input, out)?;
    }
    Ok(())
}

fn put_input(input: &Input, out: &mut Writer) -> Result<(), Mem>
    ensures { OnOk result (out.new ≡ out.old ++ inked (some_value (view_input input.now))) }
{
    match input {
        Input::One(part) => put_input_part(part, out),
        Input::Tuple(_, parts) => {
            out.name("tuple")?;
            put_input_parts(parts, out)
        }
    }
}

fn put_input_parts(parts: &[InputPart], out: &mut Writer) -> Result<(), Mem>
    ensures { OnOk result (out.new ≡ out.old ++ inked (value_parts (trees (map view_input_part parts.now)) (ink.blank ∷ []))) }
{
    let mut more = false;
    for part in parts {
        put_tuple_before(more, out)?;
        put_input_part(part, out)?;
        more = true;
    }
    Ok(())
}

/// What stands before a part of a tuple: a comma, or a blank before the first.
fn put_tuple_before(more: bool, out: &mut Writer) -> Result<(), Mem>
    ensures { OnOk result (out.new ≡ out.old ++ inked (if more then comma else ink.blank ∷ [])) }
{
    if more {
        put_comma(true, out)
    } else {
        out.blank()
    }
}

fn put_input_part(part: &InputPart, out: &mut Writer) -> Result<(), Mem>
    ensures { OnOk result (out.new ≡ out.old ++ inked (value_part (view_input_part part.now))) }
{
    match part {
        InputPart::Val(_, _, name) => put_named("val", name, out),
        InputPart::Path(_, _, name) => put_named("path", name, out),
        InputPart::Stdin(_) => out.name("stdin"),
    }
}

fn put_named(word: &str, name: &Txt, out: &mut Writer) -> Result<(), Mem>
    ensures { OnOk result (out.new ≡ out.old ++ inked (ink.name word.now ∷ ink.blank ∷ ink.name name.now ∷ [])) }
{
    out.name(word)?;
    out.blank()?;
    out.name(name.as_str())
}

// ---- outputs

fn put_outputs(outputs: &Option<Outputs>, margin: &Margin, out: &mut Writer) -> Result<(), Mem>
    requires { layout_of margin.now ≡ inside }
    ensures { OnOk result (out.new ≡ out.old ++ inked (section_of (codes "output") output_of (maybe view_outputs outputs.now))) }
{
    match outputs {
        None => Ok(()),
        Some(outputs) => {
            put_head("output", margin, out)?;
            put_output_list(&outputs.outputs, margin, out)
        }
    }
}

fn put_output_list(outputs: &[Output], margin: &Margin, out: &mut Writer) -> Result<(), Mem>
    requires { layout_of margin.now ≡ inside }
    ensures { OnOk result (out.new ≡ out.old ++ inked (on_lines output_of (trees (map view_output outputs.now)))) }
{
    for output in outputs {
        margin.before_first(out)?;
        put_output(output, margin, out)?;
    }
    Ok(())
}

fn put_output(output: &Output, margin: &Margin, out: &mut Writer) -> Result<(), Mem>
    requires { layout_of margin.now ≡ inside }
    ensures { OnOk result (out.new ≡ out.old ++ inked (output_of (view_output output.now))) }
{
    put_output_value(&output.value, margin, out)?;
    put_options(&output.options, margin, out)
}

/// The options of an output, with a comma before each.
fn put_options(options: &[Label], margin: &Margin, out: &mut Writer) -> Result<(), Mem>
    requires { layout_of margin.now ≡ inside }
    ensures { OnOk result (out.new ≡ out.old ++ inked (listed (trees (map view_label options.now)) inside comma)) }
{
    for option in options {
        put_comma(true, out)?;
        put_labelled(option, margin, out)?;
    }
    Ok(())
}

fn put_output_value(value: &OutputValue, margin: &Margin, out: &mut Writer) -> Result<(), Mem>
    requires { layout_of margin.now ≡ inside }
    ensures { OnOk result (out.new ≡ out.old ++ inked (some_value (view_output_value value.now))) }
{
    match value {
        OutputValue::One(part) => put_output_part(part, margin, out),
        OutputValue::Tuple(_, parts) => {
            out.name("tuple")?;
            put_output_parts(parts, margin, out)
        }
    }
}

fn put_output_parts(parts: &[OutputPart], margin: &Margin, out: &mut Writer) -> Result<(), Mem>
    requires { layout_of margin.now ≡ inside }
    ensures { OnOk result (out.new ≡ out.old ++ inked (value_parts (trees (map view_output_part parts.now)) (ink.blank ∷ []))) }
{
    let mut more = false;
    for part in parts {
        put_tuple_before(more, out)?;
        put_output_part(part, margin, out)?;
        more = true;
    }
    Ok(())
}

fn put_output_part(part: &OutputPart, margin: &Margin, out: &mut Writer) -> Result<(), Mem>
    requires { layout_of margin.now ≡ inside }
    ensures { OnOk result (out.new ≡ out.old ++ inked (value_part (view_output_part part.now))) }
{
    match part {
        OutputPart::Val(_, expr) => {
            out.name("val")?;
            out.blank()?;
            put_expr(expr, margin, false, out)
        }
        OutputPart::Path(_, expr) => {
            out.name("path")?;
            out.blank()?;
            put_expr(expr, margin, false, out)
        }
        OutputPart::Stdout(_) => out.name("stdout"),
    }
}

// ---- what a task runs

fn put_task(task: &Task, margin: &Margin, out: &mut Writer) -> Result<(), Mem>
    requires { layout_of margin.now ≡ inside }
    ensures { OnOk result (out.new ≡ out.old ++ inked (task_of (view_task task.now))) }
{
    match task {
        Task::Script(section) => put_section("script", section, margin, out),
        Task::Text(expr) => {
            is_expression(expr);
            margin.before_first(out)?;
            put_expr(expr, margin, false, out)
        }
    }
}

fn put_stub(stub: &Option<Section>, margin: &Margin, out: &mut Writer) -> Result<(), Mem>
    requires { layout_of margin.now ≡ inside }
    ensures { OnOk result (out.new ≡ out.old ++ inked (body_section (codes "stub") (maybe view_section stub.now))) }
{
    match stub {
        None => Ok(()),
        Some(section) => put_section("stub", section, margin, out),
    }
}
