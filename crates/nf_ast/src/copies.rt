//! Copies of expressions, closures and statements.

ghost use Rattle.std.specs.Prelude.{◌≡◌, IfOk};
ghost use Rattle.nf_ast.specs.View.{view, view_operand, view_branch, view_postfix, view_piece, view_pair, view_arg, view_closure, view_body, view_label, view_stmt, view_arm, key_tree};

use crate::expr::{
    Arg, Arm, Branch, ClosureBody, ClosureExpr, Expr, Fragment, Key, Label, Operand, Pair, Postfix,
    Stmt,
};
use crate::list_copies::{
    copy_args, copy_arms, copy_branches, copy_exprs, copy_labels, copy_operands, copy_pairs,
    copy_pieces, copy_postfixes, copy_stmts,
};
use crate::name_copies::{copy_name, copy_names, copy_params, copy_prefixes};
use nf_value::Mem;
use std::alloc::Global;

impl Key {
    /// Another key, of the same tree. A text is copied by its own allocator, so this one isn't used.
    ///
    /// # Errors
    ///
    /// `Mem` where there is no memory for it.
    pub fn copy(&self, _alloc: Global) -> Result<Key, Mem>
        ensures { IfOk result (λ k. key_tree k ≡ key_tree self.now) }
    {
        match self {
            Key::Name(place, name) => Ok(Key::Name(*place, name.copy()?)),
            Key::Text(place, kind, text) => Ok(Key::Text(*place, *kind, text.copy()?)),
            Key::Template(place, kind, text) => {
                Ok(Key::Template(*place, *kind, copy_name(text)?))
            }
        }
    }
}

impl Expr {
    /// Another expression, of the same tree. A chain is copied by a loop, so calls are nested no deeper than the expression is.
    ///
    /// # Errors
    ///
    /// `Mem` where there is no memory for it.
    #[cycle(copy)]
    pub fn copy(&self, alloc: Global) -> Result<Expr, Mem>
        ensures { IfOk result (λ e. view e ≡ view self.now) }
    {
        match self {
            Expr::Number(place, value) => Ok(Expr::Number(*place, *value)),
            Expr::Text(place, kind, text) => Ok(Expr::Text(*place, *kind, text.copy()?)),
            Expr::Pattern(place, text) => Ok(Expr::Pattern(*place, text.copy()?)),
            Expr::Template(place, kind, parts) => {
                Ok(Expr::Template(*place, *kind, copy_pieces(parts, alloc)?))
            }
            Expr::Truth(place, value) => Ok(Expr::Truth(*place, *value)),
            Expr::Null(place) => Ok(Expr::Null(*place)),
            Expr::Name(place, name) => Ok(Expr::Name(*place, name.copy()?)),
            Expr::List(place, items) => Ok(Expr::List(*place, copy_exprs(items, alloc)?)),
            Expr::Map(place, pairs) => Ok(Expr::Map(*place, copy_pairs(pairs, alloc)?)),
            Expr::Closure(closure) => Ok(Expr::Closure(closure.copy(alloc)?)),
            Expr::Prefix(operators, of) => {
                let of = of.copy(alloc)?;
                Expr::prefix(alloc, copy_prefixes(operators, alloc)?, of)
            }
            Expr::Infix(first, rest) => {
                let first = first.copy(alloc)?;
                Expr::infix(alloc, first, copy_operands(rest, alloc)?)
            }
            Expr::Conditional(first, rest) => {
                let first = first.copy(alloc)?;
                Expr::conditional(alloc, first, copy_branches(rest, alloc)?)
            }
            Expr::Postfix(first, rest) => {
                let first = first.copy(alloc)?;
                Expr::postfix(alloc, first, copy_postfixes(rest, alloc)?)
            }
        }
    }
}

impl Fragment {
    /// Another text or hole, of the same tree.
    ///
    /// # Errors
    ///
    /// `Mem` where there is no memory for it.
    #[cycle(copy)]
    pub fn copy(&self, alloc: Global) -> Result<Fragment, Mem>
        ensures { IfOk result (λ p. view_piece p ≡ view_piece self.now) }
    {
        match self {
            Fragment::Plain(place, text) => Ok(Fragment::Plain(*place, text.copy()?)),
            Fragment::Hole(place, expr) => Ok(Fragment::Hole(*place, expr.copy(alloc)?)),
        }
    }
}

impl Pair {
    /// Another pair, of the same tree.
    ///
    /// # Errors
    ///
    /// `Mem` where there is no memory for it.
    #[cycle(copy)]
    pub fn copy(&self, alloc: Global) -> Result<Pair, Mem>
        ensures { IfOk result (λ p. view_pair p ≡ view_pair self.now) }
    {
        let key = self.key.copy(alloc)?;
        let value = self.value.copy(alloc)?;
        Ok(Pair { key, value })
    }
}

impl Operand {
    /// Another operand with the same operator, of the same tree.
    ///
    /// # Errors
    ///
    /// `Mem` where there is no memory for it.
    #[cycle(copy)]
    pub fn copy(&self, alloc: Global) -> Result<Operand, Mem>
        ensures { IfOk result (λ o. view_operand o ≡ view_operand self.now) }
    {
        let expr = self.expr.copy(alloc)?;
        Ok(Operand::new(self.place, self.operator, expr))
    }
}

impl Branch {
    /// Another operand with the same operator, of the same tree.
    ///
    /// # Errors
    ///
    /// `Mem` where there is no memory for it.
    #[cycle(copy)]
    pub fn copy(&self, alloc: Global) -> Result<Branch, Mem>
        ensures { IfOk result (λ b. view_branch b ≡ view_branch self.now) }
    {
        let expr = self.expr.copy(alloc)?;
        Ok(Branch::new(self.place, self.operator, expr))
    }
}

impl Postfix {
    /// Another part, of the same tree.
    ///
    /// # Errors
    ///
    /// `Mem` where there is no memory for it.
    #[cycle(copy)]
    pub fn copy(&self, alloc: Global) -> Result<Postfix, Mem>
        ensures { IfOk result (λ p. view_postfix p ≡ view_postfix self.now) }
    {
        match self {
            Postfix::Property(place, name) => Ok(Postfix::Property(*place, name.copy()?)),
            Postfix::SafeProperty(place, name) => Ok(Postfix::SafeProperty(*place, name.copy()?)),
            Postfix::Index(place, index) => Ok(Postfix::Index(*place, index.copy(alloc)?)),
            Postfix::Call(place, args) => Ok(Postfix::Call(*place, copy_args(args, alloc)?)),
            Postfix::With(closure) => Ok(Postfix::With(closure.copy(alloc)?)),
        }
    }
}

impl Arg {
    /// Another argument, of the same tree.
    ///
    /// # Errors
    ///
    /// `Mem` where there is no memory for it.
    #[cycle(copy)]
    pub fn copy(&self, alloc: Global) -> Result<Arg, Mem>
        ensures { IfOk result (λ a. view_arg a ≡ view_arg self.now) }
    {
        let name = copy_name(&self.name)?;
        let value = self.value.copy(alloc)?;
        Ok(Arg::new(name, value))
    }
}

impl ClosureExpr {
    /// Another closure, of the same tree.
    ///
    /// # Errors
    ///
    /// `Mem` where there is no memory for it.
    #[cycle(copy)]
    pub fn copy(&self, alloc: Global) -> Result<ClosureExpr, Mem>
        ensures { IfOk result (λ c. view_closure c ≡ view_closure self.now) }
    {
        let params = copy_params(&self.params, alloc)?;
        let body = self.body.copy(alloc)?;
        Ok(ClosureExpr::new(self.place, params, body))
    }
}

impl ClosureBody {
    /// Another body, of the same tree.
    ///
    /// # Errors
    ///
    /// `Mem` where there is no memory for it.
    #[cycle(copy)]
    pub fn copy(&self, alloc: Global) -> Result<ClosureBody, Mem>
        ensures { IfOk result (λ b. view_body b ≡ view_body self.now) }
    {
        match self {
            ClosureBody::Statements(body) => Ok(ClosureBody::Statements(copy_stmts(body, alloc)?)),
            ClosureBody::Labels(labels) => Ok(ClosureBody::Labels(copy_labels(labels, alloc)?)),
        }
    }
}

impl Label {
    /// Another labelled expression, of the same tree.
    ///
    /// # Errors
    ///
    /// `Mem` where there is no memory for it.
    #[cycle(copy)]
    pub fn copy(&self, alloc: Global) -> Result<Label, Mem>
        ensures { IfOk result (λ l. view_label l ≡ view_label self.now) }
    {
        let name = self.name.copy()?;
        let value = self.value.copy(alloc)?;
        Ok(Label::new(self.place, name, value))
    }
}

impl Stmt {
    /// Another statement, of the same tree.
    ///
    /// # Errors
    ///
    /// `Mem` where there is no memory for it.
    #[cycle(copy)]
    pub fn copy(&self, alloc: Global) -> Result<Stmt, Mem>
        ensures { IfOk result (λ s. view_stmt s ≡ view_stmt self.now) }
    {
        match self {
            Stmt::Define(place, name_place, name, expr) => {
                let name = name.copy()?;
                Ok(Stmt::Define(*place, *name_place, name, expr.copy(alloc)?))
            }
            Stmt::DefineAll(place, all, expr) => {
                let all = copy_names(all, alloc)?;
                Ok(Stmt::DefineAll(*place, all, expr.copy(alloc)?))
            }
            Stmt::Assign(place, name, expr) => {
                let name = name.copy()?;
                Ok(Stmt::Assign(*place, name, expr.copy(alloc)?))
            }
            Stmt::Return(place, expr) => Ok(Stmt::Return(*place, expr.copy(alloc)?)),
            Stmt::Choice(arms, None) => Ok(Stmt::Choice(copy_arms(arms, alloc)?, None)),
            Stmt::Choice(arms, Some(last)) => {
                let arms = copy_arms(arms, alloc)?;
                let last = copy_stmts(last, alloc)?;
                Ok(Stmt::choice(arms, Some(last)))
            }
            Stmt::Println(place, expr) => Ok(Stmt::Println(*place, expr.copy(alloc)?)),
            Stmt::Log(place, name_place, name, expr) => {
                let name = name.copy()?;
                Ok(Stmt::Log(*place, *name_place, name, expr.copy(alloc)?))
            }
            Stmt::Expr(expr) => Ok(Stmt::Expr(expr.copy(alloc)?)),
        }
    }
}

impl Arm {
    /// Another arm, of the same tree.
    ///
    /// # Errors
    ///
    /// `Mem` where there is no memory for it.
    #[cycle(copy)]
    pub fn copy(&self, alloc: Global) -> Result<Arm, Mem>
        ensures { IfOk result (λ a. view_arm a ≡ view_arm self.now) }
    {
        let condition = self.condition.copy(alloc)?;
        let body = copy_stmts(&self.body, alloc)?;
        Ok(Arm::new(self.place, condition, body))
    }
}
