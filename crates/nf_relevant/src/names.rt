//! Lists the names that stand in expressions.

ghost use Rattle.std.specs.Prelude.{◌≡◌, ◌∷◌, ◌++◌, [], map, option_map, IfOk, OnOk};
ghost use Rattle.nf_ast.specs.View.{view, views, view_piece, view_pair, view_operand, view_branch, view_postfix, view_arg, view_closure, view_body, view_label, view_stmt, view_stmts, view_arm, trees};
ghost use Rattle.nf_relevant.specs.Names.{names_read, operands_read, branches_read, part_read, parts_read, arms_read};
ghost use Rattle.nf_relevant.specs.Reads.{Reads};

use nf_ast::{
    Arg, Arm, Branch, ClosureBody, ClosureExpr, Expr, Fragment, Label, Operand, Pair, Postfix, Stmt,
};
use nf_value::{Mem, Txt};
use std::alloc::Global;

/// The names that stand in an expression, in the order of the text (own): those that it binds itself and those of functions too, each as
/// often as it stands there, but for what `println` and `log` print. With their values alone the expression has its value
/// (`laws::by_its_names`).
///
/// # Errors
///
/// `Mem` if there is no memory for the list.
pub fn names_in(alloc: Global, expr: &Expr) -> Result<Vec<Txt>, Mem>
    ensures exact { IfOk result (λ v. v.items ≡ names_read (view expr.now)) }
    ensures reads { IfOk result (λ v. Reads v.items (view expr.now)) }
{
    let mut out = Vec::new(alloc);
    put_expr(expr, &mut out)?;
    Ok(out)
}

/// The names that stand in the body of a closure, as `names_in` gives them.
///
/// # Errors
///
/// `Mem` if there is no memory for the list.
pub fn names_in_closure(alloc: Global, closure: &ClosureExpr) -> Result<Vec<Txt>, Mem>
    ensures exact { IfOk result (λ v. v.items ≡ names_read (view_body closure.now.body)) }
    ensures reads { IfOk result (λ v. Reads v.items (view_body closure.now.body)) }
{
    let mut out = Vec::new(alloc);
    put_body(&closure.body, &mut out)?;
    Ok(out)
}

#[cycle(names)]
fn put_expr(expr: &Expr, out: &mut Vec<Txt>) -> Result<(), Mem>
    ensures { OnOk result (out.new.items ≡ out.old.items ++ names_read (view expr.now)) }
{
    match expr {
        Expr::Number(_, _)
        | Expr::Text(_, _, _)
        | Expr::Pattern(_, _)
        | Expr::Truth(_, _)
        | Expr::Null(_) => Ok(()),
        Expr::Template(_, _, pieces) => put_pieces(pieces, out),
        Expr::Name(_, name) => put_name(name, out),
        Expr::List(_, items) => put_exprs(items, out),
        Expr::Map(_, pairs) => put_pairs(pairs, out),
        Expr::Closure(closure) => put_closure(closure, out),
        Expr::Prefix(_, of) => put_expr(of, out),
        Expr::Infix(first, rest) => {
            put_expr(first, out)?;
            put_operands(rest, out)
        }
        Expr::Conditional(first, rest) => {
            put_expr(first, out)?;
            put_branches(rest, out)
        }
        Expr::Postfix(first, rest) => {
            put_expr(first, out)?;
            put_parts(rest, out)
        }
    }
}

fn put_name(name: &Txt, out: &mut Vec<Txt>) -> Result<(), Mem>
    ensures { OnOk result (out.new.items ≡ out.old.items ++ name.now ∷ []) }
{
    out.push(name.copy()?)?;
    Ok(())
}

#[cycle(names)]
fn put_exprs(items: &[Expr], out: &mut Vec<Txt>) -> Result<(), Mem>
    ensures { OnOk result (out.new.items ≡ out.old.items ++ names_read (views items.now)) }
{
    for item in items {
        put_expr(item, out)?;
    }
    Ok(())
}

#[cycle(names)]
fn put_pieces(pieces: &[Fragment], out: &mut Vec<Txt>) -> Result<(), Mem>
    ensures { OnOk result (out.new.items ≡ out.old.items ++ names_read (trees (map view_piece pieces.now))) }
{
    for piece in pieces {
        put_piece(piece, out)?;
    }
    Ok(())
}

#[cycle(names)]
fn put_piece(piece: &Fragment, out: &mut Vec<Txt>) -> Result<(), Mem>
    ensures { OnOk result (out.new.items ≡ out.old.items ++ names_read (view_piece piece.now)) }
{
    match piece {
        Fragment::Plain(_, _) => Ok(()),
        Fragment::Hole(_, expr) => put_expr(expr, out),
    }
}

#[cycle(names)]
fn put_pairs(pairs: &[Pair], out: &mut Vec<Txt>) -> Result<(), Mem>
    ensures { OnOk result (out.new.items ≡ out.old.items ++ names_read (trees (map view_pair pairs.now))) }
{
    for pair in pairs {
        put_pair(pair, out)?;
    }
    Ok(())
}

#[cycle(names)]
fn put_pair(pair: &Pair, out: &mut Vec<Txt>) -> Result<(), Mem>
    ensures { OnOk result (out.new.items ≡ out.old.items ++ names_read (view_pair pair.now)) }
{
    put_expr(&pair.value, out)
}

#[cycle(names)]
fn put_args(args: &[Arg], out: &mut Vec<Txt>) -> Result<(), Mem>
    ensures { OnOk result (out.new.items ≡ out.old.items ++ names_read (trees (map view_arg args.now))) }
{
    for arg in args {
        put_arg(arg, out)?;
    }
    Ok(())
}

#[cycle(names)]
fn put_arg(arg: &Arg, out: &mut Vec<Txt>) -> Result<(), Mem>
    ensures { OnOk result (out.new.items ≡ out.old.items ++ names_read (view_arg arg.now)) }
{
    put_expr(&arg.value, out)
}

// ---- lists of one level

#[cycle(names)]
fn put_operands(rest: &[Operand], out: &mut Vec<Txt>) -> Result<(), Mem>
    ensures { OnOk result (out.new.items ≡ out.old.items ++ operands_read (map view_operand rest.now)) }
{
    for operand in rest {
        put_expr(&operand.expr, out)?;
    }
    Ok(())
}

#[cycle(names)]
fn put_branches(rest: &[Branch], out: &mut Vec<Txt>) -> Result<(), Mem>
    ensures { OnOk result (out.new.items ≡ out.old.items ++ branches_read (map view_branch rest.now)) }
{
    for branch in rest {
        put_expr(&branch.expr, out)?;
    }
    Ok(())
}

#[cycle(names)]
fn put_parts(parts: &[Postfix], out: &mut Vec<Txt>) -> Result<(), Mem>
    ensures { OnOk result (out.new.items ≡ out.old.items ++ parts_read (map view_postfix parts.now)) }
{
    for part in parts {
        put_part(part, out)?;
    }
    Ok(())
}

#[cycle(names)]
fn put_part(part: &Postfix, out: &mut Vec<Txt>) -> Result<(), Mem>
    ensures { OnOk result (out.new.items ≡ out.old.items ++ part_read (view_postfix part.now)) }
{
    match part {
        Postfix::Property(_, _) | Postfix::SafeProperty(_, _) => Ok(()),
        Postfix::Index(_, expr) => put_expr(expr, out),
        Postfix::Call(_, args) => put_args(args, out),
        Postfix::With(closure) => put_closure(closure, out),
    }
}

// ---- closures and statements

#[cycle(names)]
fn put_closure(closure: &ClosureExpr, out: &mut Vec<Txt>) -> Result<(), Mem>
    ensures { OnOk result (out.new.items ≡ out.old.items ++ names_read (view_closure closure.now)) }
{
    put_body(&closure.body, out)
}

#[cycle(names)]
fn put_body(body: &ClosureBody, out: &mut Vec<Txt>) -> Result<(), Mem>
    ensures { OnOk result (out.new.items ≡ out.old.items ++ names_read (view_body body.now)) }
{
    match body {
        ClosureBody::Statements(stmts) => put_stmts(stmts, out),
        ClosureBody::Labels(labels) => put_labels(labels, out),
    }
}

#[cycle(names)]
fn put_labels(labels: &[Label], out: &mut Vec<Txt>) -> Result<(), Mem>
    ensures { OnOk result (out.new.items ≡ out.old.items ++ names_read (trees (map view_label labels.now))) }
{
    for label in labels {
        put_label(label, out)?;
    }
    Ok(())
}

#[cycle(names)]
fn put_label(label: &Label, out: &mut Vec<Txt>) -> Result<(), Mem>
    ensures { OnOk result (out.new.items ≡ out.old.items ++ names_read (view_label label.now)) }
{
    put_expr(&label.value, out)
}

#[cycle(names)]
fn put_stmts(stmts: &[Stmt], out: &mut Vec<Txt>) -> Result<(), Mem>
    ensures { OnOk result (out.new.items ≡ out.old.items ++ names_read (view_stmts stmts.now)) }
{
    for stmt in stmts {
        put_stmt(stmt, out)?;
    }
    Ok(())
}

#[cycle(names)]
fn put_stmt(stmt: &Stmt, out: &mut Vec<Txt>) -> Result<(), Mem>
    ensures { OnOk result (out.new.items ≡ out.old.items ++ names_read (view_stmt stmt.now)) }
{
    match stmt {
        Stmt::Define(_, _, _, expr)
        | Stmt::DefineAll(_, _, expr)
        | Stmt::Assign(_, _, expr)
        | Stmt::Return(_, expr)
        | Stmt::Expr(expr) => put_expr(expr, out),
        Stmt::Choice(arms, last) => match last {
            None => put_arms(arms, out),
            Some(stmts) => {
                put_arms(arms, out)?;
                put_stmts(stmts, out)
            }
        },
        Stmt::Println(_, _) | Stmt::Log(_, _, _, _) => Ok(()),
    }
}

#[cycle(names)]
fn put_arms(arms: &[Arm], out: &mut Vec<Txt>) -> Result<(), Mem>
    ensures { OnOk result (out.new.items ≡ out.old.items ++ arms_read (map view_arm arms.now)) }
{
    for arm in arms {
        put_arm(arm, out)?;
    }
    Ok(())
}

#[cycle(names)]
fn put_arm(arm: &Arm, out: &mut Vec<Txt>) -> Result<(), Mem>
    ensures { OnOk result (out.new.items ≡ out.old.items ++ (names_read (view_arm arm.now).condition ++ names_read (view_arm arm.now).body)) }
{
    put_expr(&arm.condition, out)?;
    put_stmts(&arm.body, out)
}
