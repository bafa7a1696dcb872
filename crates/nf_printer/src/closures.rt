//! The text of closures and of statements.

ghost use Rattle.std.specs.Prelude.{◌≡◌, [], ◌∷◌, ◌++◌, OnOk, map, true, false, not, if◌then◌else◌, option_map};
ghost use Rattle.nf_ast.specs.Tree as tree;
ghost use Rattle.nf_ast.specs.View.{view, view_closure, view_body, view_label, view_stmt, view_stmts, view_arm, names, name_tree, trees, params_tree};
ghost use Rattle.nf_writer.specs.Ink as ink;
ghost use Rattle.nf_writer.specs.Ink.{inked, spaced};
ghost use Rattle.nf_writer.specs.Lines.{Layout, between};
ghost use Rattle.nf_printer.specs.Bodies.{is_expr, is_short as is_short_of, first_before, closure_last};
ghost use Rattle.nf_printer.specs.Levels.{prints as prints_of};
ghost use Rattle.nf_printer.specs.Exprs.{equals, blank_after, inks, listed, parts as parts_of};
ghost use Rattle.nf_printer.specs.Chains.{is_nil, arm_inks, arms_inks, closure_inks};
ghost use Rattle.nf_writer.specs.Styles.{layout_of};

use crate::exprs::{put_comma, put_expr, put_label};
use crate::leading::{is_expression, prints};
use nf_ast::{Arm, ClosureBody, ClosureExpr, Expr, Label, Stmt};
use nf_token::{Keyword, Mark};
use nf_value::{Mem, Place, Txt};
use nf_writer::{Margin, Writer};

/// A closure: on one line where it is one expression or nothing.
#[cycle(put)]
pub fn put_closure(closure: &ClosureExpr, margin: &Margin, out: &mut Writer) -> Result<(), Mem>
    ensures { OnOk result (out.new ≡ out.old ++ inked (inks (view_closure closure.now) (layout_of margin.now) false)) }
{
    let inner = margin.deeper()?;
    put_inside(&closure.body, &closure.params, margin, &inner, out)
}

/// The parameters of a closure and its body, in braces; `inner` is the margin of the body.
#[cycle(put)]
fn put_inside(
    body: &ClosureBody,
    params: &Option<Vec<(Place, Txt)>>,
    margin: &Margin,
    inner: &Margin,
    out: &mut Writer,
) -> Result<(), Mem>
    ensures { OnOk result (out.new ≡ out.old ++ inked (closure_inks (params_tree (option_map (λ v. v.items) params.now)) (view_body body.now) (layout_of margin.now) (layout_of inner.now))) }
{
    let short = is_short(body);
    out.mark(Mark::OpenBrace)?;
    put_params(params, out)?;
    put_body(body, short, inner, out)?;
    put_last(short, margin, out)?;
    out.mark(Mark::CloseBrace)
}

/// Whether a body stands on one line: it is one expression, or nothing.
fn is_short(body: &ClosureBody) -> bool
    ensures { result ≡ is_short_of (view_body body.now) }
{
    match body {
        ClosureBody::Statements(stmts) => is_short_list(stmts),
        ClosureBody::Labels(labels) => no_labels(labels),
    }
}

/// Whether there is no label. A body of labels never stands on one line.
fn no_labels(labels: &[Label]) -> bool
    ensures { result ≡ is_short_of (trees (map view_label labels.now)) }
{
    match labels {
        [] => true,
        [label] => is_expr_label(label),
        [_first, _second, ..] => false,
    }
}

/// A label isn't an expression.
fn is_expr_label(_label: &Label) -> bool
    ensures { result ≡ is_expr (view_label _label.now) }
{
    false
}

/// Whether there is no statement, or one that is an expression.
fn is_short_list(stmts: &[Stmt]) -> bool
    ensures { result ≡ is_short_of (view_stmts stmts.now) }
{
    match stmts {
        [] => true,
        [stmt] => is_lone(stmt),
        [_first, _second, ..] => false,
    }
}

/// Whether a statement is an expression.
fn is_lone(stmt: &Stmt) -> bool
    ensures { result ≡ is_expr (view_stmt stmt.now) }
{
    match stmt {
        Stmt::Expr(expr) => {
            is_expression(expr);
            true
        }
        Stmt::Choice(_, _) => false,
        Stmt::Define(_, _, _, _) => false,
        Stmt::DefineAll(_, _, _) => false,
        Stmt::Assign(_, _, _) => false,
        Stmt::Return(_, _) => false,
        Stmt::Println(_, _) => false,
        Stmt::Log(_, _, _, _) => false,
    }
}

/// The parameters of a closure and the arrow, where it has them.
fn put_params(params: &Option<Vec<(Place, Txt)>>, out: &mut Writer) -> Result<(), Mem>
    ensures { (l : Layout) → OnOk result (out.new ≡ out.old ++ inked (inks (params_tree (option_map (λ v. v.items) params.now)) l false)) }
{
    match params {
        None => Ok(()),
        Some(list) => {
            out.blank()?;
            put_names(list, out)?;
            put_blank_after(list, out)?;
            out.mark(Mark::Arrow)
        }
    }
}

/// A blank after the parameters, where there are any: `{ -> e }` has none.
fn put_blank_after(list: &[(Place, Txt)], out: &mut Writer) -> Result<(), Mem>
    ensures { OnOk result (out.new ≡ out.old ++ inked (blank_after (names list.now))) }
{
    match list {
        [] => Ok(()),
        [_first, ..] => out.blank(),
    }
}

/// Names with commas between them.
pub fn put_names(list: &[(Place, Txt)], out: &mut Writer) -> Result<(), Mem>
    ensures { (l : Layout) → OnOk result (out.new ≡ out.old ++ inked (listed (names list.now) l [])) }
{
    let mut more = false;
    for (_, name) in list {
        put_comma(more, out)?;
        out.name(name.as_str())?;
        more = true;
    }
    Ok(())
}

/// What stands before a part: before the first a blank or a new line, before any `more` what stands between two.
fn put_before(more: bool, short: bool, margin: &Margin, out: &mut Writer) -> Result<(), Mem>
    ensures { OnOk result (out.new ≡ out.old ++ inked (if more then between (layout_of margin.now) else first_before short (layout_of margin.now))) }
{
    if more {
        margin.between(out)
    } else if short {
        out.blank()
    } else {
        margin.before_first(out)
    }
}

/// What stands after the last part: a blank where the body is short.
fn put_last(short: bool, margin: &Margin, out: &mut Writer) -> Result<(), Mem>
    ensures { OnOk result (out.new ≡ out.old ++ inked (closure_last short (layout_of margin.now))) }
{
    if short {
        out.blank()
    } else {
        margin.after_last(out)
    }
}

/// The body of a closure.
#[cycle(put)]
fn put_body(body: &ClosureBody, short: bool, margin: &Margin, out: &mut Writer) -> Result<(), Mem>
    ensures { OnOk result (out.new ≡ out.old ++ inked (parts_of (view_body body.now) (layout_of margin.now) (first_before short (layout_of margin.now)))) }
{
    match body {
        ClosureBody::Statements(stmts) => put_stmts(stmts, short, margin, out),
        ClosureBody::Labels(labels) => put_labels(labels, short, margin, out),
    }
}

/// Statements.
#[cycle(put)]
pub fn put_stmts(stmts: &[Stmt], short: bool, margin: &Margin, out: &mut Writer) -> Result<(), Mem>
    ensures { OnOk result (out.new ≡ out.old ++ inked (parts_of (view_stmts stmts.now) (layout_of margin.now) (first_before short (layout_of margin.now)))) }
{
    let mut more = false;
    for stmt in stmts {
        put_before(more, short, margin, out)?;
        put_stmt(stmt, margin, out)?;
        more = true;
    }
    Ok(())
}

/// Labels.
#[cycle(put)]
fn put_labels(labels: &[Label], short: bool, margin: &Margin, out: &mut Writer) -> Result<(), Mem>
    ensures { OnOk result (out.new ≡ out.old ++ inked (parts_of (trees (map view_label labels.now)) (layout_of margin.now) (first_before short (layout_of margin.now)))) }
{
    let mut more = false;
    for label in labels {
        put_before(more, short, margin, out)?;
        put_labelled(label, margin, out)?;
        more = true;
    }
    Ok(())
}

/// A labelled expression.
#[cycle(put)]
pub fn put_labelled(label: &Label, margin: &Margin, out: &mut Writer) -> Result<(), Mem>
    ensures { OnOk result (out.new ≡ out.old ++ inked (inks (view_label label.now) (layout_of margin.now) false)) }
{
    put_label(&label.name, out)?;
    put_expr(&label.value, margin, false, out)
}

/// A statement.
#[cycle(put)]
fn put_stmt(stmt: &Stmt, margin: &Margin, out: &mut Writer) -> Result<(), Mem>
    ensures { OnOk result (out.new ≡ out.old ++ inked (inks (view_stmt stmt.now) (layout_of margin.now) (prints_of (view_stmt stmt.now) false))) }
{
    match stmt {
        Stmt::Define(_, _, name, expr) => {
            out.keyword(Keyword::Def)?;
            out.blank()?;
            put_assign(name, expr, margin, out)
        }
        Stmt::DefineAll(_, list, expr) => {
            out.keyword(Keyword::Def)?;
            out.blank()?;
            out.mark(Mark::OpenRound)?;
            put_names(list, out)?;
            out.mark(Mark::CloseRound)?;
            out.spaced(Mark::Equals)?;
            put_expr(expr, margin, false, out)
        }
        Stmt::Assign(_, name, expr) => put_assign(name, expr, margin, out),
        Stmt::Return(_, expr) => {
            out.keyword(Keyword::Return)?;
            out.blank()?;
            put_expr(expr, margin, false, out)
        }
        Stmt::Choice(arms, last) => match last {
            None => put_arms(arms, margin, out),
            Some(stmts) => {
                put_arms(arms, margin, out)?;
                put_else(some_arms(arms), out)?;
                put_block(stmts, margin, out)
            }
        },
        Stmt::Println(_, expr) => {
            out.name("println")?;
            out.blank()?;
            put_expr(expr, margin, false, out)
        }
        Stmt::Log(_, _, name, expr) => {
            out.name("log")?;
            out.mark(Mark::Dot)?;
            out.name(name.as_str())?;
            out.blank()?;
            put_expr(expr, margin, false, out)
        }
        Stmt::Expr(expr) => put_expr(expr, margin, prints(expr, false), out),
    }
}

/// A name, `=` and an expression.
#[cycle(put)]
pub fn put_assign(name: &Txt, expr: &Expr, margin: &Margin, out: &mut Writer) -> Result<(), Mem>
    ensures { OnOk result (out.new ≡ out.old ++ inked (ink.name name.now ∷ equals ++ inks (view expr.now) (layout_of margin.now) false)) }
{
    out.name(name.as_str())?;
    out.spaced(Mark::Equals)?;
    put_expr(expr, margin, false, out)
}

/// The arms of an `if`, with `else` between them. Its last `else` comes after.
#[cycle(put)]
fn put_arms(arms: &[Arm], margin: &Margin, out: &mut Writer) -> Result<(), Mem>
    ensures { OnOk result (out.new ≡ out.old ++ inked (arms_inks (map view_arm arms.now) (layout_of margin.now) [])) }
{
    let mut more = false;
    for arm in arms {
        put_else(more, out)?;
        put_arm(arm, margin, out)?;
        more = true;
    }
    Ok(())
}

/// Whether there is an arm.
fn some_arms(arms: &[Arm]) -> bool
    ensures { result ≡ not (is_nil (map view_arm arms.now)) }
{
    match arms {
        [] => false,
        [_first, ..] => true,
    }
}

/// `else` with a blank on both sides, where an arm came before. It stands on the line of the `}` before it.
fn put_else(more: bool, out: &mut Writer) -> Result<(), Mem>
    ensures { OnOk result (out.new ≡ out.old ++ inked (if more then spaced (ink.keyword Keyword.Else) else [])) }
{
    if more {
        out.spaced_keyword(Keyword::Else)?;
    }
    Ok(())
}

/// An arm: `if`, its condition in brackets, and its statements in braces.
#[cycle(put)]
fn put_arm(arm: &Arm, margin: &Margin, out: &mut Writer) -> Result<(), Mem>
    ensures { OnOk result (out.new ≡ out.old ++ inked (arm_inks (view_arm arm.now) (layout_of margin.now))) }
{
    out.keyword(Keyword::If)?;
    out.blank()?;
    out.mark(Mark::OpenRound)?;
    put_expr(&arm.condition, margin, false, out)?;
    out.mark(Mark::CloseRound)?;
    out.blank()?;
    put_block(&arm.body, margin, out)
}

/// Statements in braces.
#[cycle(put)]
pub fn put_block(stmts: &[Stmt], margin: &Margin, out: &mut Writer) -> Result<(), Mem>
    ensures { OnOk result (out.new ≡ out.old ++ inked (inks (tree.statements (view_stmts stmts.now)) (layout_of margin.now) false)) }
{
    let inner = margin.deeper()?;
    out.mark(Mark::OpenBrace)?;
    put_stmts(stmts, false, &inner, out)?;
    margin.after_last(out)?;
    out.mark(Mark::CloseBrace)
}
