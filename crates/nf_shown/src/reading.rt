//! What is kept while a history is read: who took each ticket, and what the views printed.

ghost use Rattle.std.specs.Prelude.{◌≡◌, ◌<◌, ◌++◌, ◌∷◌, [], false, IfOk, OnOk, get_or, length, replicate};
ghost use Rattle.nf_value.specs.View.{plain_of};
ghost use Rattle.nf_machine.specs.declared.event.Event.TheVariants as e;
ghost use Rattle.nf_shown.specs.Shown.{ReadsOn, with_more};

use nf_machine::Event;
use nf_value::{EvalFault, Mem, Vals, Value};
use std::alloc::Global;
use std::mem::replace;

/// What is kept of the events so far.
#[derive(Drop)]
pub(crate) struct Reading {
    /// The node that took each ticket, by the ticket's number. No ticket has the number 0.
    pub(crate) takers: Vec<u32>,
    /// For each node what it printed, if it is a view.
    pub(crate) lists: Vec<Vals>,
}

impl Reading {
    /// Before the first event, of so many nodes.
    pub(crate) fn begin(alloc: Global, nodes: usize) -> Result<Reading, Mem>
        ensures takers { IfOk result (λ r. length r.takers.items ≡ 1) }
        ensures lists { IfOk result (λ r. r.lists.items ≡ replicate nodes []) }
    {
        let mut takers = Vec::new(alloc);
        takers.push(0)?;
        let lists = no_lists(alloc, nodes)?;
        Ok(Reading { takers, lists })
    }

    /// Reads the next event.
    pub(crate) fn event(
        &mut self,
        alloc: Global,
        are_views: &[bool],
        event: &Event,
    ) -> Result<(), Mem>
        requires { length self.old.lists.items ≡ length are_views.now }
        ensures kept { OnOk result (length self.new.lists.items ≡ length are_views.now) }
        ensures read { OnOk result (ReadsOn are_views.now event.now self.old self.new) }
    {
        match event {
            Event::Take { node, .. } => self.taken(*node),
            Event::Give { ticket, answer } => self.given(alloc, are_views, *ticket, answer),
            Event::Pass { .. }
            | Event::Start { .. }
            | Event::Reuse { .. }
            | Event::Finish { .. }
            | Event::Close { .. }
            | Event::Abort { .. }
            | Event::Halt => Ok(()),
        }
    }

    /// Notes which node took the next ticket.
    fn taken(&mut self, node: u32) -> Result<(), Mem>
        ensures takers { OnOk result (self.new.takers.items ≡ self.old.takers.items ++ node ∷ []) }
        ensures lists { self.new.lists.items ≡ self.old.lists.items }
    {
        self.takers.push(node)?;
        Ok(())
    }

    /// Reads the answer to a ticket's item, or the fault of its closure.
    fn given(
        &mut self,
        alloc: Global,
        are_views: &[bool],
        ticket: u32,
        answer: &Result<Value, EvalFault>,
    ) -> Result<(), Mem>
        requires { length self.old.lists.items ≡ length are_views.now }
        ensures kept { OnOk result (length self.new.lists.items ≡ length are_views.now) }
        ensures read { OnOk result (ReadsOn are_views.now (e.Give ticket answer.now) self.old self.new) }
    {
        match answer {
            Ok(value) => self.answered(alloc, are_views, ticket, value),
            Err(_) => Ok(()),
        }
    }

    /// Keeps the answer, if a view took the ticket.
    fn answered(
        &mut self,
        alloc: Global,
        are_views: &[bool],
        ticket: u32,
        value: &Value,
    ) -> Result<(), Mem>
        requires { length self.old.lists.items ≡ length are_views.now }
        ensures kept { OnOk result (length self.new.lists.items ≡ length are_views.now) }
        ensures read { OnOk result (ReadsOn are_views.now (e.Give ticket (Ok value.now)) self.old self.new) }
    {
        let node = self.taker(ticket);
        if is_view(are_views, node) {
            return add(alloc, &mut self.lists, node, value);
        }
        Ok(())
    }

    /// The node that took the ticket.
    fn taker(&self, ticket: u32) -> usize
        ensures { result ≡ get_or self.now.takers.items ticket 0 }
    {
        match self.takers.get(ticket as usize) {
            Some(node) => *node as usize,
            None => 0,
        }
    }
}

pub(crate) fn is_view(are_views: &[bool], node: usize) -> bool
    ensures { result ≡ get_or are_views.now node false }
{
    match are_views.get(node) {
        Some(view) => *view,
        None => false,
    }
}

/// A list of so many lists without a value.
fn no_lists(alloc: Global, nodes: usize) -> Result<Vec<Vals>, Mem>
    ensures { IfOk result (λ v. v.items ≡ replicate nodes []) }
{
    let mut lists = Vec::new(alloc);
    for _ in 0..nodes {
        lists.push(Vals::of(Vec::new(alloc)))?;
    }
    Ok(lists)
}

/// Adds a value to the list at a place.
fn add(alloc: Global, lists: &mut Vec<Vals>, place: usize, value: &Value) -> Result<(), Mem>
    requires { place < length lists.old.items }
    ensures { OnOk result (lists.new.items ≡ with_more lists.old.items place (plain_of value.now)) }
{
    let list = replace(&mut lists[place], Vals::of(Vec::new(alloc)));
    lists[place] = pushed(list, value)?;
    Ok(())
}

/// The list with a value more at its end.
fn pushed(list: Vals, value: &Value) -> Result<Vals, Mem>
    ensures { IfOk result (λ l. l ≡ list ++ plain_of value.now ∷ []) }
{
    let mut values = list.into_items();
    values.push(value.copy()?)?;
    Ok(Vals::of(values))
}
