//! The text of expressions. Each function adds to what is printed, and its errors are `Mem`.

ghost use Rattle.std.specs.Prelude.{◌≡◌, [], ◌∷◌, ◌++◌, OnOk, map, true, false, if◌then◌else◌};
ghost use Rattle.nf_ast.specs.View.{view, view_piece, view_pair, view_operand, view_branch, view_postfix, view_arg, views, key_tree, part_of, trees};
ghost use Rattle.nf_ast.specs.Tree as tree;
ghost use Rattle.nf_writer.specs.Ink as ink;
ghost use Rattle.nf_writer.specs.Ink.{inked};
ghost use Rattle.nf_printer.specs.Levels.{within};
ghost use Rattle.nf_printer.specs.Exprs.{infix_inks, comma, colon, inks, listed, piece as piece_of, pieces as pieces_of, colon_alone};
ghost use Rattle.nf_printer.specs.Chains.{prefixes_inks, opens as opens_of, operand_inks, operands_inks, part_inks, parts_inks, opens_late as opens_late_of, branches_inks};
ghost use Rattle.nf_writer.specs.Styles.{layout_of};

use crate::branches::{BranchState, has_late, holds, open_late, put_colons};
use crate::closures::put_closure;
use crate::levels::{
    POSTFIX, PREFIX, both, bracketed, infix_level, is_bare, left_level, level, no_parts,
    no_prefixes, right_level, without,
};
use nf_ast::{
    Arg, Branch, Expr, Fragment, InfixOperator, Key, Operand, Pair, Postfix, Prefix, PrefixOperator,
};
use nf_token::{Keyword, Mark, TemplateKind};
use nf_value::{Mem, Place, Txt};
use nf_writer::{Margin, Writer};

/// An expression. Where it is `guarded`, the name that it begins with stands in brackets, so that a statement isn't read as `println`
/// or `log`: `(println)(x)`.
///
/// # Errors
///
/// `Mem` where there is no memory for the text.
#[cycle(put)]
pub fn put_expr(expr: &Expr, margin: &Margin, guarded: bool, out: &mut Writer) -> Result<(), Mem>
    ensures { OnOk result (out.new ≡ out.old ++ inked (inks (view expr.now) (layout_of margin.now) guarded)) }
{
    match expr {
        Expr::Number(_, number) => out.number(*number),
        Expr::Text(_, kind, text) => out.plain(*kind, margin.is_inline(), text),
        Expr::Pattern(_, text) => out.pattern(text),
        Expr::Template(_, kind, pieces) => put_template(pieces, *kind, margin, out),
        Expr::Truth(_, true) => out.keyword(Keyword::True),
        Expr::Truth(_, false) => out.keyword(Keyword::False),
        Expr::Null(_) => out.keyword(Keyword::Null),
        Expr::Name(_, name) => put_guarded(name, guarded, out),
        Expr::List(_, items) => put_list(items, margin, out),
        Expr::Map(_, pairs) => put_map(pairs, margin, out),
        Expr::Closure(closure) => put_closure(closure, margin, out),
        Expr::Prefix(prefixes, of) => {
            let brackets = bracketed(no_prefixes(prefixes), level(of), PREFIX);
            put_prefixes(prefixes, out)?;
            out.open_round(brackets)?;
            put_expr(of, margin, both(guarded, no_prefixes(prefixes)), out)?;
            out.close_round(brackets)
        }
        Expr::Infix(first, rest) => {
            let at = level(first);
            put_opens(rest, at, out)?;
            put_expr(first, margin, both(guarded, is_bare(rest, at)), out)?;
            put_operands(rest, at, margin, out)
        }
        Expr::Conditional(first, rest) => {
            let brackets = holds(first, rest, BranchState::none());
            open_late(rest, out)?;
            out.open_round(brackets)?;
            let outermost = without(guarded, has_late(rest));
            put_expr(first, margin, without(outermost, brackets), out)?;
            out.close_round(brackets)?;
            put_branches(rest, margin, out)
        }
        Expr::Postfix(first, rest) => {
            let brackets = bracketed(no_parts(rest), level(first), POSTFIX);
            out.open_round(brackets)?;
            put_expr(first, margin, without(guarded, brackets), out)?;
            out.close_round(brackets)?;
            put_parts(rest, margin, out)
        }
    }
}

/// A name, in brackets where it is guarded.
fn put_guarded(name: &Txt, guarded: bool, out: &mut Writer) -> Result<(), Mem>
    ensures { OnOk result (out.new ≡ out.old ++ inked (within guarded (ink.name name.now ∷ []))) }
{
    out.open_round(guarded)?;
    out.name(name.as_str())?;
    out.close_round(guarded)
}

/// The operators before an operand, `!` and `-`.
fn put_prefixes(prefixes: &[Prefix], out: &mut Writer) -> Result<(), Mem>
    ensures { OnOk result (out.new ≡ out.old ++ inked (prefixes_inks prefixes.now)) }
{
    for prefix in prefixes {
        match prefix.operator {
            PrefixOperator::Not => out.mark(Mark::Not)?,
            PrefixOperator::Minus => out.mark(Mark::Minus)?,
        }
    }
    Ok(())
}

// ---- operands of one level

/// A `(` before the first operand, which has this level, for each operator that needs all before it in brackets.
fn put_opens(rest: &[Operand], first: u8, out: &mut Writer) -> Result<(), Mem>
    ensures { OnOk result (out.new ≡ out.old ++ inked (opens_of (map view_operand rest.now) first)) }
{
    let mut last = first;
    for operand in rest {
        out.open_round(last < left_level(operand.operator))?;
        last = infix_level(operand.operator);
    }
    Ok(())
}

/// Each further operand with the operator before it; the first has this level.
#[cycle(put)]
fn put_operands(rest: &[Operand], first: u8, margin: &Margin, out: &mut Writer) -> Result<(), Mem>
    ensures { OnOk result (out.new ≡ out.old ++ inked (operands_inks (map view_operand rest.now) first (layout_of margin.now))) }
{
    let mut last = first;
    for operand in rest {
        put_operand(operand, last, margin, out)?;
        last = infix_level(operand.operator);
    }
    Ok(())
}

/// An operand with the operator before it. What stands before that has this level.
#[cycle(put)]
fn put_operand(operand: &Operand, last: u8, margin: &Margin, out: &mut Writer) -> Result<(), Mem>
    ensures { OnOk result (out.new ≡ out.old ++ inked (operand_inks (view_operand operand.now) last (layout_of margin.now))) }
{
    let brackets = level(&operand.expr) < right_level(operand.operator);
    out.close_round(last < left_level(operand.operator))?;
    put_infix(operand.operator, out)?;
    out.open_round(brackets)?;
    put_expr(&operand.expr, margin, false, out)?;
    out.close_round(brackets)
}

/// An operator between operands: `..` alone, and every other with a blank on both sides.
fn put_infix(operator: InfixOperator, out: &mut Writer) -> Result<(), Mem>
    ensures { OnOk result (out.new ≡ out.old ++ inked (infix_inks operator)) }
{
    match operator {
        InfixOperator::Or => out.spaced(Mark::Or),
        InfixOperator::And => out.spaced(Mark::And),
        InfixOperator::Pipe => out.spaced(Mark::Pipe),
        InfixOperator::Same => out.spaced(Mark::Same),
        InfixOperator::Differs => out.spaced(Mark::Differs),
        InfixOperator::Matches => out.spaced(Mark::Matches),
        InfixOperator::Less => out.spaced(Mark::Less),
        InfixOperator::AtMost => out.spaced(Mark::AtMost),
        InfixOperator::Greater => out.spaced(Mark::Greater),
        InfixOperator::AtLeast => out.spaced(Mark::AtLeast),
        InfixOperator::In => out.spaced_keyword(Keyword::In),
        InfixOperator::Range => out.mark(Mark::DotDot),
        InfixOperator::Plus => out.spaced(Mark::Plus),
        InfixOperator::Minus => out.spaced(Mark::Minus),
        InfixOperator::Times => out.spaced(Mark::Times),
        InfixOperator::Remainder => out.spaced(Mark::Percent),
    }
}

// ---- conditional expressions

/// Each operator of a conditional expression with the operand after it.
#[cycle(put)]
fn put_branches(rest: &[Branch], margin: &Margin, out: &mut Writer) -> Result<(), Mem>
    ensures { OnOk result (out.new ≡ out.old ++ inked (branches_inks (map view_branch rest.now) 0 false (layout_of margin.now))) }
{
    let mut state = BranchState::none();
    for (place, branch) in rest.iter().enumerate() {
        state.put(branch.operator, out)?;
        state = state.after(branch.operator);
        let brackets = holds(&branch.expr, &rest[place + 1..], state);
        out.open_round(brackets)?;
        put_expr(&branch.expr, margin, false, out)?;
        out.close_round(brackets)?;
    }
    put_colons(state.asked, out)
}

// ---- parts after an expression

/// The parts after an expression.
#[cycle(put)]
fn put_parts(parts: &[Postfix], margin: &Margin, out: &mut Writer) -> Result<(), Mem>
    ensures { OnOk result (out.new ≡ out.old ++ inked (parts_inks (map view_postfix parts.now) (layout_of margin.now))) }
{
    for part in parts {
        put_part(part, margin, out)?;
    }
    Ok(())
}

/// A part after an expression: `.name`, `?.name`, an index, a call or a closure.
#[cycle(put)]
fn put_part(part: &Postfix, margin: &Margin, out: &mut Writer) -> Result<(), Mem>
    ensures { OnOk result (out.new ≡ out.old ++ inked (part_inks (view_postfix part.now) (layout_of margin.now))) }
{
    match part {
        Postfix::Property(_, name) => {
            out.mark(Mark::Dot)?;
            out.name(name.as_str())
        }
        Postfix::SafeProperty(_, name) => {
            out.mark(Mark::QuestionDot)?;
            out.name(name.as_str())
        }
        Postfix::Index(_, expr) => {
            out.mark(Mark::OpenSquare)?;
            put_expr(expr, margin, false, out)?;
            out.mark(Mark::CloseSquare)
        }
        Postfix::Call(_, args) => {
            out.mark(Mark::OpenRound)?;
            put_args(args, margin, out)?;
            out.mark(Mark::CloseRound)
        }
        Postfix::With(closure) => {
            out.blank()?;
            put_closure(closure, margin, out)
        }
    }
}

/// Arguments with commas between them.
#[cycle(put)]
pub fn put_args(args: &[Arg], margin: &Margin, out: &mut Writer) -> Result<(), Mem>
    ensures { OnOk result (out.new ≡ out.old ++ inked (listed (trees (map view_arg args.now)) (layout_of margin.now) [])) }
{
    let mut more = false;
    for arg in args {
        put_comma(more, out)?;
        put_arg(arg, margin, out)?;
        more = true;
    }
    Ok(())
}

/// An argument, with its name where it has one.
#[cycle(put)]
fn put_arg(arg: &Arg, margin: &Margin, out: &mut Writer) -> Result<(), Mem>
    ensures { OnOk result (out.new ≡ out.old ++ inked (inks (view_arg arg.now) (layout_of margin.now) false)) }
{
    match &arg.name {
        None => {}
        Some((_, name)) => put_label(name, out)?,
    }
    put_expr(&arg.value, margin, false, out)
}

/// A name with a colon after it.
pub fn put_label(name: &Txt, out: &mut Writer) -> Result<(), Mem>
    ensures { OnOk result (out.new ≡ out.old ++ inked (ink.name name.now ∷ colon)) }
{
    out.name(name.as_str())?;
    out.mark(Mark::Colon)?;
    out.blank()
}

/// A comma and a blank, where a part came before.
pub fn put_comma(more: bool, out: &mut Writer) -> Result<(), Mem>
    ensures { OnOk result (out.new ≡ out.old ++ inked (if more then comma else [])) }
{
    if more {
        out.mark(Mark::Comma)?;
        out.blank()?;
    }
    Ok(())
}

// ---- lists, maps and templates

/// A list.
#[cycle(put)]
fn put_list(items: &[Expr], margin: &Margin, out: &mut Writer) -> Result<(), Mem>
    ensures { OnOk result (out.new ≡ out.old ++ inked (ink.mark Mark.OpenSquare ∷ listed (views items.now) (layout_of margin.now) [] ++ ink.mark Mark.CloseSquare ∷ [])) }
{
    out.mark(Mark::OpenSquare)?;
    let mut more = false;
    for item in items {
        put_comma(more, out)?;
        put_expr(item, margin, false, out)?;
        more = true;
    }
    out.mark(Mark::CloseSquare)
}

/// A map; `[:]` where it has no pair.
#[cycle(put)]
fn put_map(pairs: &[Pair], margin: &Margin, out: &mut Writer) -> Result<(), Mem>
    ensures { OnOk result (out.new ≡ out.old ++ inked (ink.mark Mark.OpenSquare ∷ colon_alone (trees (map view_pair pairs.now)) ++ listed (trees (map view_pair pairs.now)) (layout_of margin.now) [] ++ ink.mark Mark.CloseSquare ∷ [])) }
{
    out.mark(Mark::OpenSquare)?;
    put_colon_alone(pairs, out)?;
    put_pairs(pairs, margin, out)?;
    out.mark(Mark::CloseSquare)
}

/// The colon of a map without a pair.
fn put_colon_alone(pairs: &[Pair], out: &mut Writer) -> Result<(), Mem>
    ensures { OnOk result (out.new ≡ out.old ++ inked (colon_alone (trees (map view_pair pairs.now)))) }
{
    match pairs {
        [] => out.mark(Mark::Colon),
        [_first, ..] => Ok(()),
    }
}

/// Pairs with commas between them.
#[cycle(put)]
fn put_pairs(pairs: &[Pair], margin: &Margin, out: &mut Writer) -> Result<(), Mem>
    ensures { OnOk result (out.new ≡ out.old ++ inked (listed (trees (map view_pair pairs.now)) (layout_of margin.now) [])) }
{
    let mut more = false;
    for pair in pairs {
        put_comma(more, out)?;
        put_pair(pair, margin, out)?;
        more = true;
    }
    Ok(())
}

/// A pair: its key, a colon and its value.
#[cycle(put)]
fn put_pair(pair: &Pair, margin: &Margin, out: &mut Writer) -> Result<(), Mem>
    ensures { OnOk result (out.new ≡ out.old ++ inked (inks (view_pair pair.now) (layout_of margin.now) false)) }
{
    put_key(&pair.key, margin, out)?;
    out.mark(Mark::Colon)?;
    out.blank()?;
    put_expr(&pair.value, margin, false, out)
}

/// The key of a pair.
fn put_key(key: &Key, margin: &Margin, out: &mut Writer) -> Result<(), Mem>
    ensures { OnOk result (out.new ≡ out.old ++ inked (inks (key_tree key.now) (layout_of margin.now) false)) }
{
    match key {
        Key::Name(_, name) => out.name(name.as_str()),
        Key::Text(_, kind, text) => out.plain(*kind, margin.is_inline(), text),
        Key::Template(_, kind, part) => {
            out.open_template(*kind)?;
            put_key_text(part, *kind, margin, out)?;
            out.close_template(*kind)
        }
    }
}

fn put_key_text(
    part: &Option<(Place, Txt)>,
    kind: TemplateKind,
    margin: &Margin,
    out: &mut Writer,
) -> Result<(), Mem>
    ensures { OnOk result (out.new ≡ out.old ++ inked (pieces_of (part_of part.now) kind (layout_of margin.now))) }
{
    match part {
        None => Ok(()),
        Some((_, text)) => out.template_text(kind, margin.is_inline(), text),
    }
}

/// A template.
#[cycle(put)]
fn put_template(
    pieces: &[Fragment],
    kind: TemplateKind,
    margin: &Margin,
    out: &mut Writer,
) -> Result<(), Mem>
    ensures { OnOk result (out.new ≡ out.old ++ inked (ink.open_template kind ∷ pieces_of (trees (map view_piece pieces.now)) kind (layout_of margin.now) ++ ink.close_template kind ∷ [])) }
{
    out.open_template(kind)?;
    for piece in pieces {
        put_piece(piece, kind, margin, out)?;
    }
    out.close_template(kind)
}

/// A text or a hole of a template.
#[cycle(put)]
fn put_piece(
    piece: &Fragment,
    kind: TemplateKind,
    margin: &Margin,
    out: &mut Writer,
) -> Result<(), Mem>
    ensures { OnOk result (out.new ≡ out.old ++ inked (piece_of (view_piece piece.now) kind (layout_of margin.now))) }
{
    match piece {
        Fragment::Plain(_, text) => out.template_text(kind, margin.is_inline(), text),
        Fragment::Hole(_, expr) => {
            out.open_hole()?;
            put_expr(expr, &Margin::Inline, false, out)?;
            out.close_hole()
        }
    }
}
