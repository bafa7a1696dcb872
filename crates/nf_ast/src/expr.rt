//! Expressions, closures and statements.

ghost use Rattle.std.specs.Prelude.{◌≡◌, [], map, IfOk, option_map};
ghost use Rattle.nf_ast.specs.Tree as tree;
ghost use Rattle.nf_ast.specs.View.{view, views, view_stmts, view_operand, view_branch, view_postfix, view_piece, view_pair, view_arg, view_closure, view_body, view_label, view_stmt, view_arm, trees, operands, conditional, postfix, prefixes, choice, last_arm, params_tree, key_tree, with_name, names};

use crate::operators::{BranchOperator, InfixOperator, PrefixOperator};
use nf_token::{PlainKind, TemplateKind};
use nf_value::{Mem, Place, Txt};
use std::alloc::Global;

/// An expression (Nextflow reference documentation, "Syntax", "Expressions"; the places own). Operands of one level stand in one list in
/// one node: `a + b - c` is `a` with two operands. So an expression is never deeper than its open brackets times the levels. Contracts
/// see its `Tree`, by `view`.
#[cycle(tree)]
pub enum Expr {
    /// A signed number of 64 bits, with the place of its first digit.
    Number(Place, i64),
    /// A plain string, with the place of its opening quote, its kind, and the text that it stands for.
    Text(Place, PlainKind, Txt),
    /// A pattern, with the place of its `~`.
    Pattern(Place, Txt),
    /// A template, with the place of its opening quote, its kind, and its texts and holes.
    Template(Place, TemplateKind, Vec<Fragment>),
    /// `true` or `false`.
    Truth(Place, bool),
    /// `null`.
    Null(Place),
    /// A name, with the place of its first letter.
    Name(Place, Txt),
    /// `[..]`, with the place of the bracket and the items.
    List(Place, Vec<Expr>),
    /// `[k: v, ..]` or `[:]`, with the place of the bracket and the pairs.
    Map(Place, Vec<Pair>),
    /// A closure.
    Closure(ClosureExpr),
    /// Operators before an operand, the outermost first.
    Prefix(Vec<Prefix>, Box<Expr>),
    /// Operands of one level, each after the first with the operator before it.
    Infix(Box<Expr>, Vec<Operand>),
    /// `c ? a : b`, `a ?: b`, and what is nested in them without brackets: all their operands in the order of the text, each after the
    /// first with the operator before it.
    Conditional(Box<Expr>, Vec<Branch>),
    /// An expression with the parts after it, as `.name`, `[i]` and `(x)`, in the order of the text.
    Postfix(Box<Expr>, Vec<Postfix>),
}

impl Drop for Expr {
    #[cycle(discard)]
    fn drop(self) {
        match self {
            Expr::Number(_, _)
            | Expr::Text(_, _, _)
            | Expr::Pattern(_, _)
            | Expr::Template(_, _, _)
            | Expr::Truth(_, _)
            | Expr::Null(_)
            | Expr::Name(_, _)
            | Expr::List(_, _)
            | Expr::Map(_, _)
            | Expr::Closure(_)
            | Expr::Prefix(_, _)
            | Expr::Infix(_, _)
            | Expr::Conditional(_, _)
            | Expr::Postfix(_, _) => {}
        }
    }
}

/// A text or a hole of a template.
#[cycle(tree)]
pub enum Fragment {
    /// A text, with the place where it begins.
    Plain(Place, Txt),
    /// A hole, with the place of its `$`.
    Hole(Place, Expr),
}

impl Drop for Fragment {
    #[cycle(discard)]
    fn drop(self) {
        match self {
            Fragment::Plain(_, _) | Fragment::Hole(_, _) => {}
        }
    }
}

/// A pair of a map.
#[cycle(tree)]
pub struct Pair {
    /// Its key.
    pub key: Key,
    /// Its value.
    pub value: Expr,
}

impl Drop for Pair {
    #[cycle(discard)]
    fn drop(self) {
        let Pair { key: _, value: _ } = self;
    }
}

/// The key of a pair.
pub enum Key {
    /// A name.
    Name(Place, Txt),
    /// A plain string.
    Text(Place, PlainKind, Txt),
    /// A template without a hole; an empty one has no text.
    Template(Place, TemplateKind, Option<(Place, Txt)>),
}

impl Drop for Key {
    fn drop(self) {
        match self {
            Key::Name(_, _) | Key::Text(_, _, _) | Key::Template(_, _, _) => {}
        }
    }
}

/// An operator before an operand.
#[derive(Drop, Clone, Copy)]
pub struct Prefix {
    /// The place of the operator.
    pub place: Place,
    /// The operator.
    pub operator: PrefixOperator,
}

/// An operand with the operator before it.
#[cycle(tree)]
pub struct Operand {
    /// The place of the operator.
    pub place: Place,
    /// The operator.
    pub operator: InfixOperator,
    /// The operand.
    pub expr: Expr,
}

impl Drop for Operand {
    #[cycle(discard)]
    fn drop(self) {
        let Operand {
            place: _,
            operator: _,
            expr: _,
        } = self;
    }
}

/// An operand of a conditional expression with the operator before it.
#[cycle(tree)]
pub struct Branch {
    /// The place of the operator.
    pub place: Place,
    /// The operator.
    pub operator: BranchOperator,
    /// The operand.
    pub expr: Expr,
}

impl Drop for Branch {
    #[cycle(discard)]
    fn drop(self) {
        let Branch {
            place: _,
            operator: _,
            expr: _,
        } = self;
    }
}

/// A part after an expression: a property, an index, a call, or a closure that it is called with.
#[cycle(tree)]
pub enum Postfix {
    /// `.name`, with the place of the name.
    Property(Place, Txt),
    /// `?.name`, with the place of the name.
    SafeProperty(Place, Txt),
    /// `[e]`, with the place of the bracket.
    Index(Place, Expr),
    /// `(..)`, with the place of the bracket.
    Call(Place, Vec<Arg>),
    /// A closure that the call before it takes, as in `f(x) { .. }`, or that is the one argument, as in `f { .. }`.
    With(ClosureExpr),
}

impl Drop for Postfix {
    #[cycle(discard)]
    fn drop(self) {
        match self {
            Postfix::Property(_, _)
            | Postfix::SafeProperty(_, _)
            | Postfix::Index(_, _)
            | Postfix::Call(_, _)
            | Postfix::With(_) => {}
        }
    }
}

/// An argument.
#[cycle(tree)]
pub struct Arg {
    /// Its name, where it has one, with the name's place.
    pub name: Option<(Place, Txt)>,
    /// Its value.
    pub value: Expr,
}

impl Drop for Arg {
    #[cycle(discard)]
    fn drop(self) {
        let Arg { name: _, value: _ } = self;
    }
}

/// A closure (Nextflow reference documentation, "Syntax", "Closure"). Contracts see its `Tree`, by `view_closure`.
#[cycle(tree)]
pub struct ClosureExpr {
    /// The place of its `{`.
    pub place: Place,
    /// The names before its `->`, with their places. `None` where it has no arrow: its parameter is then `it`.
    pub params: Option<Vec<(Place, Txt)>>,
    /// Its statements or labels.
    pub body: ClosureBody,
}

impl Drop for ClosureExpr {
    #[cycle(discard)]
    fn drop(self) {
        let ClosureExpr {
            place: _,
            params: _,
            body: _,
        } = self;
    }
}

/// What stands in a closure.
#[cycle(tree)]
pub enum ClosureBody {
    /// Its statements, in their order.
    Statements(Vec<Stmt>),
    /// Labelled expressions, as `branch` and `multiMap` take them.
    Labels(Vec<Label>),
}

impl Drop for ClosureBody {
    #[cycle(discard)]
    fn drop(self) {
        match self {
            ClosureBody::Statements(_) | ClosureBody::Labels(_) => {}
        }
    }
}

/// A labelled expression.
#[cycle(tree)]
pub struct Label {
    /// The place of the label.
    pub place: Place,
    /// The label.
    pub name: Txt,
    /// The expression.
    pub value: Expr,
}

impl Drop for Label {
    #[cycle(discard)]
    fn drop(self) {
        let Label {
            place: _,
            name: _,
            value: _,
        } = self;
    }
}

/// A statement (Nextflow reference documentation, "Syntax", "Statements"). Contracts see its `Tree`, by `view_stmt`.
#[cycle(tree)]
pub enum Stmt {
    /// `def name = e`, with the places of `def` and the name.
    Define(Place, Place, Txt, Expr),
    /// `def (a, b) = e`, with the place of `def`.
    DefineAll(Place, Vec<(Place, Txt)>, Expr),
    /// `name = e`, with the place of the name.
    Assign(Place, Txt, Expr),
    /// `return e`.
    Return(Place, Expr),
    /// The arms of an `if`, each with its condition, and the statements of the last `else`.
    Choice(Vec<Arm>, Option<Vec<Stmt>>),
    /// `println e`.
    Println(Place, Expr),
    /// `log.name e`, with the places of `log` and the name.
    Log(Place, Place, Txt, Expr),
    /// An expression that stands alone.
    Expr(Expr),
}

impl Drop for Stmt {
    #[cycle(discard)]
    fn drop(self) {
        match self {
            Stmt::Define(_, _, _, _)
            | Stmt::DefineAll(_, _, _)
            | Stmt::Assign(_, _, _)
            | Stmt::Return(_, _)
            | Stmt::Choice(_, _)
            | Stmt::Println(_, _)
            | Stmt::Log(_, _, _, _)
            | Stmt::Expr(_) => {}
        }
    }
}

/// An arm of an `if`.
#[cycle(tree)]
pub struct Arm {
    /// The place of its `if`.
    pub place: Place,
    /// Its condition.
    pub condition: Expr,
    /// Its statements.
    pub body: Vec<Stmt>,
}

impl Drop for Arm {
    #[cycle(discard)]
    fn drop(self) {
        let Arm {
            place: _,
            condition: _,
            body: _,
        } = self;
    }
}

impl Expr {
    /// Operands of one level. Takes memory for one node.
    ///
    /// # Errors
    ///
    /// `Mem` where there is no memory for the node.
    pub fn infix(alloc: Global, first: Expr, rest: Vec<Operand>) -> Result<Expr, Mem>
        ensures { IfOk result (λ e. view e ≡ operands (view first) (map view_operand rest.items)) }
    {
        let first = Box::new(alloc, first)?;
        Ok(Expr::Infix(first, rest))
    }

    /// A conditional expression, its operands in the order of the text. Takes memory for one node.
    ///
    /// # Errors
    ///
    /// `Mem` where there is no memory for the node.
    pub fn conditional(alloc: Global, first: Expr, rest: Vec<Branch>) -> Result<Expr, Mem>
        ensures { IfOk result (λ e. view e ≡ conditional [] (view first) (map view_branch rest.items)) }
    {
        let first = Box::new(alloc, first)?;
        Ok(Expr::Conditional(first, rest))
    }

    /// An expression with the parts after it. Takes memory for one node.
    ///
    /// # Errors
    ///
    /// `Mem` where there is no memory for the node.
    pub fn postfix(alloc: Global, first: Expr, rest: Vec<Postfix>) -> Result<Expr, Mem>
        ensures { IfOk result (λ e. view e ≡ postfix (view first) (map view_postfix rest.items)) }
    {
        let first = Box::new(alloc, first)?;
        Ok(Expr::Postfix(first, rest))
    }

    /// Operators before an operand, the outermost first. Takes memory for one node.
    ///
    /// # Errors
    ///
    /// `Mem` where there is no memory for the node.
    pub fn prefix(alloc: Global, operators: Vec<Prefix>, of: Expr) -> Result<Expr, Mem>
        ensures { IfOk result (λ e. view e ≡ prefixes operators.items (view of)) }
    {
        let of = Box::new(alloc, of)?;
        Ok(Expr::Prefix(operators, of))
    }

    /// A list. Takes no memory.
    pub fn list(place: Place, items: Vec<Expr>) -> Expr
        ensures { view result ≡ tree.list place (views items.items) }
    {
        Expr::List(place, items)
    }
}

impl Operand {
    /// An operand with the operator before it. Takes no memory.
    pub fn new(place: Place, operator: InfixOperator, expr: Expr) -> Operand
        ensures { view_operand result ≡ tree.binary place operator tree.empty (view expr) }
    {
        Operand {
            place,
            operator,
            expr,
        }
    }
}

impl Stmt {
    /// The arms of an `if`, and the statements of its last `else`. Takes no memory.
    pub fn choice(arms: Vec<Arm>, last: Option<Vec<Stmt>>) -> Stmt
        ensures { view_stmt result ≡ choice (map view_arm arms.items) (last_arm (option_map (λ v. map view_stmt v.items) last)) }
    {
        Stmt::Choice(arms, last)
    }
}

impl Expr {
    /// A number, whose first digit stands at `place`. Takes no memory.
    pub fn number(place: Place, value: i64) -> Expr
        ensures { view result ≡ tree.number place value }
    {
        Expr::Number(place, value)
    }

    /// A plain string, whose opening quote stands at `place`. Takes no memory.
    pub fn text(place: Place, kind: PlainKind, text: Txt) -> Expr
        ensures { view result ≡ tree.text place kind text }
    {
        Expr::Text(place, kind, text)
    }

    /// A pattern, whose `~` stands at `place`. Takes no memory.
    pub fn pattern(place: Place, text: Txt) -> Expr
        ensures { view result ≡ tree.pattern place text }
    {
        Expr::Pattern(place, text)
    }

    /// A template, whose opening quote stands at `place`. Takes no memory.
    pub fn template(place: Place, kind: TemplateKind, parts: Vec<Fragment>) -> Expr
        ensures { view result ≡ tree.template place kind (trees (map view_piece parts.items)) }
    {
        Expr::Template(place, kind, parts)
    }

    /// `true` or `false`. Takes no memory.
    pub fn truth(place: Place, value: bool) -> Expr
        ensures { view result ≡ tree.truth place value }
    {
        Expr::Truth(place, value)
    }

    /// `null`. Takes no memory.
    pub fn null(place: Place) -> Expr
        ensures { view result ≡ tree.null place }
    {
        Expr::Null(place)
    }

    /// A name, whose first letter stands at `place`. Takes no memory.
    pub fn name(place: Place, name: Txt) -> Expr
        ensures { view result ≡ tree.name place name }
    {
        Expr::Name(place, name)
    }

    /// A map. Takes no memory.
    pub fn map(place: Place, pairs: Vec<Pair>) -> Expr
        ensures { view result ≡ tree.map place (trees (map view_pair pairs.items)) }
    {
        Expr::Map(place, pairs)
    }

    /// A closure. Takes no memory.
    pub fn closure(closure: ClosureExpr) -> Expr
        ensures { view result ≡ view_closure closure }
    {
        Expr::Closure(closure)
    }
}

impl Fragment {
    /// A text. Takes no memory.
    pub fn plain(place: Place, text: Txt) -> Fragment
        ensures { view_piece result ≡ tree.piece place text }
    {
        Fragment::Plain(place, text)
    }

    /// A hole. Takes no memory.
    pub fn hole(place: Place, expr: Expr) -> Fragment
        ensures { view_piece result ≡ tree.hole place (view expr) }
    {
        Fragment::Hole(place, expr)
    }
}

impl Pair {
    /// A pair. Takes no memory.
    pub fn new(key: Key, value: Expr) -> Pair
        ensures { view_pair result ≡ tree.pair (key_tree key) (view value) }
    {
        Pair { key, value }
    }
}

impl Branch {
    /// An operand with the operator before it. Takes no memory.
    pub fn new(place: Place, operator: BranchOperator, expr: Expr) -> Branch
        ensures { view_branch result ≡ record { place = place; operator = operator; expr = view expr } }
    {
        Branch {
            place,
            operator,
            expr,
        }
    }
}

impl Postfix {
    /// `.name`. Takes no memory.
    pub fn property(place: Place, name: Txt) -> Postfix
        ensures { view_postfix result ≡ tree.property tree.empty (tree.name place name) }
    {
        Postfix::Property(place, name)
    }

    /// `?.name`. Takes no memory.
    pub fn safe_property(place: Place, name: Txt) -> Postfix
        ensures { view_postfix result ≡ tree.safe_property tree.empty (tree.name place name) }
    {
        Postfix::SafeProperty(place, name)
    }

    /// `[e]`. Takes no memory.
    pub fn index(place: Place, expr: Expr) -> Postfix
        ensures { view_postfix result ≡ tree.index place tree.empty (view expr) }
    {
        Postfix::Index(place, expr)
    }

    /// `(..)`. Takes no memory.
    pub fn call(place: Place, args: Vec<Arg>) -> Postfix
        ensures { view_postfix result ≡ tree.call place tree.empty (trees (map view_arg args.items)) }
    {
        Postfix::Call(place, args)
    }

    /// A closure. Takes no memory.
    pub fn with(closure: ClosureExpr) -> Postfix
        ensures { view_postfix result ≡ tree.call_with tree.empty (view_closure closure) }
    {
        Postfix::With(closure)
    }
}

impl Arg {
    /// An argument. Takes no memory.
    pub fn new(name: Option<(Place, Txt)>, value: Expr) -> Arg
        ensures { view_arg result ≡ with_name name (view value) }
    {
        Arg { name, value }
    }
}

impl ClosureExpr {
    /// A closure. Takes no memory.
    pub fn new(place: Place, params: Option<Vec<(Place, Txt)>>, body: ClosureBody) -> ClosureExpr
        ensures { view_closure result ≡ tree.closure place (params_tree (option_map (λ v. v.items) params)) (view_body body) }
    {
        ClosureExpr {
            place,
            params,
            body,
        }
    }
}

impl ClosureBody {
    /// Statements. Takes no memory.
    pub fn statements(body: Vec<Stmt>) -> ClosureBody
        ensures { view_body result ≡ view_stmts body.items }
    {
        ClosureBody::Statements(body)
    }

    /// Labels. Takes no memory.
    pub fn labels(labels: Vec<Label>) -> ClosureBody
        ensures { view_body result ≡ trees (map view_label labels.items) }
    {
        ClosureBody::Labels(labels)
    }
}

impl Label {
    /// A labelled expression. Takes no memory.
    pub fn new(place: Place, name: Txt, value: Expr) -> Label
        ensures { view_label result ≡ tree.label (tree.name place name) (view value) }
    {
        Label { place, name, value }
    }
}

impl Arm {
    /// An arm. Takes no memory.
    pub fn new(place: Place, condition: Expr, body: Vec<Stmt>) -> Arm
        ensures { view_arm result ≡ record { place = place; condition = view condition; body = view_stmts body.items } }
    {
        Arm {
            place,
            condition,
            body,
        }
    }
}

impl Stmt {
    /// An expression that stands alone. Takes no memory.
    pub fn expr(expr: Expr) -> Stmt
        ensures { view_stmt result ≡ view expr }
    {
        Stmt::Expr(expr)
    }

    /// `def name = e`. Takes no memory.
    pub fn define(place: Place, name_place: Place, name: Txt, expr: Expr) -> Stmt
        ensures { view_stmt result ≡ tree.define place (tree.name name_place name) (view expr) }
    {
        Stmt::Define(place, name_place, name, expr)
    }

    /// `def (a, b) = e`. Takes no memory.
    pub fn define_all(place: Place, all: Vec<(Place, Txt)>, expr: Expr) -> Stmt
        ensures { view_stmt result ≡ tree.define_all place (names all.items) (view expr) }
    {
        Stmt::DefineAll(place, all, expr)
    }

    /// `name = e`. Takes no memory.
    pub fn assign(place: Place, name: Txt, expr: Expr) -> Stmt
        ensures { view_stmt result ≡ tree.assign (tree.name place name) (view expr) }
    {
        Stmt::Assign(place, name, expr)
    }

    /// `return e`. Takes no memory.
    pub fn returns(place: Place, expr: Expr) -> Stmt
        ensures { view_stmt result ≡ tree.return_ place (view expr) }
    {
        Stmt::Return(place, expr)
    }

    /// `println e`. Takes no memory.
    pub fn println(place: Place, expr: Expr) -> Stmt
        ensures { view_stmt result ≡ tree.println place (view expr) }
    {
        Stmt::Println(place, expr)
    }

    /// `log.name e`. Takes no memory.
    pub fn log(place: Place, name_place: Place, name: Txt, expr: Expr) -> Stmt
        ensures { view_stmt result ≡ tree.log place (tree.name name_place name) (view expr) }
    {
        Stmt::Log(place, name_place, name, expr)
    }
}
