//! What is around a workflow's body, and where its judgement has come to.

use nf_ast::Top;
use nf_kinds::{BodyScope, Broken};
use nf_value::Txt;
use std::alloc::Global;

/// What is around a body.
#[derive(Drop, Clone, Copy)]
pub(crate) struct Around<'a> {
    /// Where memory comes from.
    pub alloc: Global,
    /// The definitions of the script.
    pub tops: &'a [Top],
    /// The names of the workflows that calls led to.
    pub within: &'a [Txt],
    /// To how many more a call may lead.
    pub left: usize,
    /// The names of tables that the script doesn't define.
    pub unknown: &'a [Txt],
}

/// Where a body's judgement has come to.
#[derive(Drop)]
pub(crate) struct State {
    /// What its names stand for.
    pub scope: BodyScope,
    /// The rules that are broken so far.
    pub broken: Vec<Broken>,
}
