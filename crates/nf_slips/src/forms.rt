//! Reads expressions of which little is asked: names, numbers, closures, and what the closure of `reduce` may be.

ghost use Rattle.std.specs.Prelude.{◌≡◌, true, [], map, option_map, IfOk, if◌then◌else◌, Some};
ghost use Rattle.nf_ast.specs.View.{view, view_arg, view_body, view_closure, view_label, view_operand, view_postfix, view_stmt, params_tree, trees};
ghost use Rattle.nf_slips.specs.Forms as spec;
ghost use Rattle.nf_slips.specs.Memory.{view_form, is_nil, operand_forms, part_form, part_forms};

use nf_ast::{Arg, ClosureBody, ClosureExpr, Expr, InfixOperator, Label, Operand, Postfix, Stmt};
use nf_kinds::ClosureFacts;
use nf_value::{Mem, Place, Txt};
use std::alloc::Global;

/// An expression of which little is asked.
#[derive(Drop, Clone, Copy)]
pub enum Form<'a> {
    /// A name, with the place of its first letter.
    Name(Place, &'a Txt),
    /// A number.
    Number(i64),
    /// A closure.
    Closure(&'a ClosureExpr),
    /// `Math.min` or `Math.max`.
    Extreme,
    /// A sum, or the least or greatest, or whether all or any are true, of two names.
    Total(&'a Txt, &'a Txt),
    /// Anything else.
    Other,
}

/// The form of an expression. Takes no memory.
#[cycle(form)]
pub fn read_form(expr: &Expr) -> Form<'_>
    ensures form { view_form result ≡ spec.form_of (view expr.now) }
    ensures expression { spec.is_expression (view expr.now) ≡ true }
{
    match expr {
        Expr::Name(place, name) => Form::Name(*place, name),
        Expr::Number(_, number) => Form::Number(*number),
        Expr::Closure(closure) => Form::Closure(closure),
        Expr::Prefix(operators, of) => alone(has_none(operators), read_form(of)),
        Expr::Infix(first, rest) => operands_form(read_form(first), rest),
        Expr::Conditional(first, rest) => alone(has_none(rest), read_form(first)),
        Expr::Postfix(first, rest) => parts_form(read_form(first), rest),
        Expr::Text(_, _, _)
        | Expr::Pattern(_, _)
        | Expr::Template(_, _, _)
        | Expr::Truth(_, _)
        | Expr::Null(_)
        | Expr::List(_, _)
        | Expr::Map(_, _) => Form::Other,
    }
}

/// The form, if it stands alone in its node.
fn alone(is_alone: bool, form: Form<'_>) -> Form<'_>
    ensures { view_form result ≡ (if is_alone then view_form form.entry else spec.other) }
{
    if is_alone { form } else { Form::Other }
}

fn has_none<T>(parts: &[T]) -> bool
    ensures { result ≡ is_nil parts.now }
{
    match parts {
        [] => true,
        [_first, ..] => false,
    }
}

/// The form of operands, after that of the first.
#[cycle(form)]
fn operands_form<'a>(first: Form<'a>, rest: &'a [Operand]) -> Form<'a>
    ensures { view_form result ≡ operand_forms (view_form first.entry) (map view_operand rest.now) }
{
    let mut so_far = first;
    for operand in rest {
        so_far = of_two(adds_up(operand.operator), so_far, read_form(&operand.expr));
    }
    so_far
}

/// The form of an expression with parts after it.
#[cycle(form)]
fn parts_form<'a>(first: Form<'a>, rest: &'a [Postfix]) -> Form<'a>
    ensures { view_form result ≡ part_forms (view_form first.entry) (map view_postfix rest.now) }
{
    let mut so_far = first;
    for part in rest {
        so_far = with_part(so_far, part);
    }
    so_far
}

#[cycle(form)]
fn with_part<'a>(before: Form<'a>, part: &'a Postfix) -> Form<'a>
    ensures { view_form result ≡ part_form (view_form before.entry) (view_postfix part.now) }
{
    match part {
        Postfix::Property(_, name) => member(before, name.as_str()),
        Postfix::Call(_, args) => called(before, args_form(args)),
        Postfix::SafeProperty(_, _) | Postfix::Index(_, _) | Postfix::With(_) => Form::Other,
    }
}

/// The form of two arguments that are names.
#[cycle(form)]
fn args_form(args: &[Arg]) -> Form<'_>
    ensures { view_form result ≡ spec.pair_form (spec.form_of (trees (map view_arg args.now))) }
{
    match args {
        [first, second] => of_two(true, arg_form(first), arg_form(second)),
        _ => Form::Other,
    }
}

#[cycle(form)]
fn arg_form(arg: &Arg) -> Form<'_>
    ensures { view_form result ≡ spec.form_of (view_arg arg.now) }
{
    match &arg.name {
        Some(_) => Form::Other,
        None => read_form(&arg.value),
    }
}

fn adds_up(operator: InfixOperator) -> bool
    ensures { result ≡ spec.adds_up operator }
{
    matches!(
        operator,
        InfixOperator::Plus | InfixOperator::And | InfixOperator::Or
    )
}

fn of_two<'a>(adds_up: bool, first: Form<'a>, second: Form<'a>) -> Form<'a>
    ensures { view_form result ≡ spec.of_two adds_up (view_form first.entry) (view_form second.entry) }
{
    match (first, second) {
        (Form::Name(_, first), Form::Name(_, second)) if adds_up => Form::Total(first, second),
        _ => Form::Other,
    }
}

fn member<'a>(before: Form<'a>, name: &str) -> Form<'a>
    ensures { view_form result ≡ spec.member_form (view_form before.entry) name.now }
{
    match before {
        Form::Name(_, object) if object.as_str() == "Math" && (name == "min" || name == "max") => {
            Form::Extreme
        }
        _ => Form::Other,
    }
}

fn called<'a>(before: Form<'a>, pair: Form<'a>) -> Form<'a>
    ensures { (args : spec.FormTree) → view_form pair.entry ≡ spec.pair_form args
        → view_form result ≡ spec.called_form (view_form before.entry) args }
{
    match before {
        Form::Extreme => pair,
        _ => Form::Other,
    }
}

/// What a closure is to an operator: its labels, the name that it is, and whether `reduce` takes it (own).
///
/// # Errors
///
/// `Mem` where there is no memory for its labels.
pub fn facts(alloc: Global, closure: &ClosureExpr) -> Result<ClosureFacts, Mem>
    ensures { IfOk result (λ f. f ≡ spec.facts_in (view_closure closure.now)) }
{
    let labels = labels(alloc, &closure.body)?;
    let sole = sole_form(&closure.body);
    let name = name_alone(&closure.params, sole)?;
    let is_total = is_total_over(&closure.params, sole);
    Ok(ClosureFacts::new(labels, name, is_total))
}

fn labels(alloc: Global, body: &ClosureBody) -> Result<Vec<Txt>, Mem>
    ensures { IfOk result (λ v. v.items ≡ spec.labels_in (spec.form_of (view_body body.now))) }
{
    match body {
        ClosureBody::Statements(stmts) => Ok(no_labels(alloc, stmts)),
        ClosureBody::Labels(labels) => label_names(alloc, labels),
    }
}

/// Statements have no labels.
fn no_labels(alloc: Global, stmts: &[Stmt]) -> Vec<Txt>
    ensures { result.items ≡ spec.labels_in (spec.form_of (trees (map view_stmt stmts.now))) }
{
    tell_no_labels(stmts);
    Vec::new(alloc)
}

/// No statements begin with a label. (Called for its contract.)
fn tell_no_labels(stmts: &[Stmt])
    ensures { spec.labels_in (spec.form_of (trees (map view_stmt stmts.now))) ≡ [] }
{
    match stmts {
        [] => {}
        [first, ..] => tell_no_label(first),
    }
}

/// No statement is a label. (Called for its contract.)
fn tell_no_label(stmt: &Stmt)
    ensures { spec.without_label (spec.form_of (view_stmt stmt.now)) ≡ spec.form_of (view_stmt stmt.now) }
{
    let _form = stmt_form(stmt);
}

fn label_names(alloc: Global, labels: &[Label]) -> Result<Vec<Txt>, Mem>
    ensures { IfOk result (λ v. v.items ≡ spec.labels_in (spec.form_of (trees (map view_label labels.now)))) }
{
    let mut out = Vec::new(alloc);
    for label in labels {
        out.push(label.name.copy()?)?;
    }
    Ok(out)
}

/// The form of a body of one statement.
fn sole_form(body: &ClosureBody) -> Form<'_>
    ensures { view_form result ≡ spec.sole_of (spec.form_of (view_body body.now)) }
{
    match body {
        ClosureBody::Statements(stmts) => sole_stmt(stmts),
        ClosureBody::Labels(_) => Form::Other,
    }
}

fn sole_stmt(stmts: &[Stmt]) -> Form<'_>
    ensures { view_form result ≡ spec.sole_of (spec.form_of (trees (map view_stmt stmts.now))) }
{
    match stmts {
        [only] => stmt_form(only),
        _ => Form::Other,
    }
}

fn stmt_form(stmt: &Stmt) -> Form<'_>
    ensures { view_form result ≡ spec.form_of (view_stmt stmt.now) }
{
    match stmt {
        Stmt::Expr(expr) => read_form(expr),
        Stmt::Choice(_, _) => Form::Other,
        Stmt::Define(_, _, _, _)
        | Stmt::DefineAll(_, _, _)
        | Stmt::Assign(_, _, _)
        | Stmt::Return(_, _)
        | Stmt::Println(_, _)
        | Stmt::Log(_, _, _, _) => Form::Other,
    }
}

/// The name that a closure without an arrow is.
fn name_alone(params: &Option<Vec<(Place, Txt)>>, sole: Form<'_>) -> Result<Option<Txt>, Mem>
    ensures { IfOk result (λ n. n
        ≡ spec.name_alone (params_tree (option_map (λ v. v.items) params.now)) (view_form sole.entry)) }
{
    match params {
        Some(_) => Ok(None),
        None => name_of(sole),
    }
}

/// The name that an expression is.
///
/// # Errors
///
/// `Mem` where there is no memory for it.
pub fn name_of(form: Form<'_>) -> Result<Option<Txt>, Mem>
    ensures { IfOk result (λ n. n ≡ spec.name_of (view_form form.entry)) }
{
    match form {
        Form::Name(_, name) => Ok(Some(name.copy()?)),
        _ => Ok(None),
    }
}

fn is_total_over(params: &Option<Vec<(Place, Txt)>>, sole: Form<'_>) -> bool
    ensures { result ≡ spec.is_total_over (spec.params_in (params_tree (option_map (λ v. v.items) params.now)))
        (view_form sole.entry) }
{
    match params {
        Some(names) => is_total_of(names, sole),
        None => false,
    }
}

fn is_total_of(names: &[(Place, Txt)], sole: Form<'_>) -> bool
    ensures { result ≡ spec.is_total_over (spec.params_in (params_tree (Some names.now))) (view_form sole.entry) }
{
    match sole {
        Form::Total(m, n) => are_params(names, m.as_str(), n.as_str()),
        _ => false,
    }
}

/// Whether there are two parameters, and these are their names.
fn are_params(names: &[(Place, Txt)], m: &str, n: &str) -> bool
    ensures { result ≡ spec.are_two (spec.params_in (params_tree (Some names.now))) m.now n.now }
{
    match names {
        [first, second] => are_both(first.1.as_str(), second.1.as_str(), m, n),
        _ => false,
    }
}

/// Whether the first two differ, and the last two are these in either order.
fn are_both(a: &str, b: &str, m: &str, n: &str) -> bool
    ensures { result ≡ spec.are_both a.now b.now m.now n.now }
{
    a != b && ((m == a && n == b) || (m == b && n == a))
}
