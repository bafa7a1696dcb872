//! The tree of a script, and how contracts see it.
#![tactic(auto)]

mod copies;
mod expr;
mod list_copies;
mod name_copies;
mod operators;
mod tops;

pub use expr::{
    Arg, Arm, Branch, ClosureBody, ClosureExpr, Expr, Fragment, Key, Label, Operand, Pair, Postfix,
    Prefix, Stmt,
};
pub use operators::{BranchOperator, InfixOperator, PrefixOperator};
pub use tops::{
    Directive, Emit, Emits, Function, Input, InputPart, Inputs, Output, OutputPart, OutputValue,
    Outputs, Parameter, Parts, Process, Script, Section, Take, Task, Top, Workflow, WorkflowBody,
};
