//! Sources and the calls of operators and processes, as nodes of the plan.

ghost use Rattle.std.specs.Prelude.{◌≡◌, ◌<◌, ◌^◌, ◌++◌, length, map, IfErr, IfOk, OnOk};
ghost use Rattle.nf_meaning.specs.declared.fault.LowerFault.TheVariants as fault;
ghost use Rattle.nf_meaning.specs.Stands.{results};
ghost use Rattle.nf_scopes.specs.Things.{output_of, thing_of};
ghost use Rattle.nf_plan.specs.Calls.{CanAddOperator, CanAddSource};
ghost use Rattle.nf_follows.specs.Rooms.{KeepsRoom};
ghost use Rattle.nf_follows.specs.Things.{PortReads, ThingReads};
ghost use Rattle.nf_lowering.specs.State.{IsLowering, Walks, calls_in};
ghost use Rattle.nf_lowering.specs.Nodes.{CanCallProcess, FillsRoom, HasLabels, KeepsCall, as_name, labels_of};
ghost use Rattle.nf_lowering.specs.Nodes.{applies, calls_process, gives_source, wanting};
ghost use Rattle.nf_lowering.specs.Nodes.{named_at, operator_gives, outputs_from, with_path};

use crate::copies::copy_label;
use crate::state::Lowering;
use nf_bag::Row;
use nf_follows::laws::{plans_extend, rooms_last, things_last};
use nf_graph::Port;
use nf_meaning::LowerFault;
use nf_meaning::laws::paths_stay_apart;
use nf_plan::{OperatorCall, ProcessCall, SourceCall, Want};
use nf_scopes::{CallOutput, Thing};
use nf_tasks::Output;
use nf_value::{Mem, Txt};
use std::alloc::Global;

impl Lowering {
    /// Adds a path whose files a source reads.
    ///
    /// # Errors
    ///
    /// `Mem` for want of memory.
    pub fn want(&mut self, want: Want) -> Result<(), LowerFault>
        requires { IsLowering self.old }
        ensures keeps { IsLowering self.new }
        ensures walk { Walks (wanting want) self.old self.new result }
        ensures kept { KeepsRoom self.old.plan self.new.plan }
        ensures calls { calls_in self.new ≡ calls_in self.old }
        ensures within { self.new.within ≡ self.old.within }
    {
        things_last();
        self.plan.want(want)?;
        Ok(())
    }

    /// Adds a source that is counted, and whose items are known (Nextflow reference documentation, "Channel
    /// factories"). The result is the port that reads it.
    ///
    /// # Errors
    ///
    /// `Mem` for want of memory.
    pub fn source(&mut self, alloc: Global, source: SourceCall) -> Result<Port, LowerFault>
        requires before { IsLowering self.old }
        requires fits { CanAddSource self.old.plan source }
        ensures keeps { IsLowering self.new }
        ensures reads { IfOk result (PortReads self.new.plan) }
        ensures walk { Walks (gives_source source) self.old self.new result }
        ensures fills { FillsRoom 0 self.old.plan self.new.plan }
        ensures calls { calls_in self.new ≡ calls_in self.old }
        ensures within { self.new.within ≡ self.old.within }
    {
        plans_extend();
        things_last();
        rooms_last();
        let port = self.plan.add_source(alloc, source)?;
        Ok(port)
    }

    /// Adds the call of an operator that is counted, and whose arguments are gone through (Nextflow reference
    /// documentation, "Operators"). It gives a channel; `branch` and `multiMap` give a channel for each label.
    ///
    /// # Errors
    ///
    /// `Mem` for want of memory.
    pub fn operator(
        &mut self,
        alloc: Global,
        call: OperatorCall,
        labels: Vec<Txt>,
    ) -> Result<Thing, LowerFault>
        requires before { IsLowering self.old }
        requires fits { CanAddOperator self.old.plan call }
        requires labels { HasLabels call.row call.opts labels.items }
        requires few { length labels.items < 2 ^ 32 }
        ensures keeps { IsLowering self.new }
        ensures reads { IfOk result (λ thing. ThingReads self.new.plan (thing_of thing)) }
        ensures walk { Walks (applies call labels.items) self.old self.new result }
        ensures fills { FillsRoom (length call.ports) self.old.plan self.new.plan }
        ensures calls { calls_in self.new ≡ calls_in self.old }
        ensures within { self.new.within ≡ self.old.within }
    {
        plans_extend();
        things_last();
        rooms_last();
        let row = call.row;
        let first = self.plan.add_operator(call)?;
        let thing = operator_gives(alloc, row, first, labels.as_slice())?;
        Ok(thing)
    }

    /// Adds the call of a process that has begun and is counted, and whose arguments are gone through (Nextflow
    /// reference documentation, "Process"). What it gives is known by its name in the rest of the body.
    ///
    /// # Errors
    ///
    /// `Mem` for want of memory.
    pub fn process(
        &mut self,
        alloc: Global,
        name: &str,
        call: ProcessCall,
    ) -> Result<Thing, LowerFault>
        requires before { IsLowering self.old }
        requires fits { CanCallProcess self.old name.now call }
        ensures keeps { OnOk result (IsLowering self.new) }
        ensures reads { IfOk result (λ thing. ThingReads self.new.plan (thing_of thing)) }
        ensures walk { Walks (calls_process name.now call) self.old self.new result }
        ensures fills { FillsRoom (length call.ports) self.old.plan self.new.plan }
        ensures calls { OnOk result (calls_in self.new ≡ with_path (self.old.path ++ name.now) (calls_in self.old)) }
        ensures within { self.new.within ≡ self.old.within }
    {
        paths_stay_apart();
        plans_extend();
        things_last();
        rooms_last();
        let labels = output_labels(alloc, call.spec.outputs.as_slice())?;
        let first = self.plan.add_process(call)?;
        self.give(alloc, name, first, labels)
    }

    /// What a call of this name gives is known by its name in the rest of the body. The port reads its first output.
    fn give(
        &mut self,
        alloc: Global,
        name: &str,
        first: Port,
        labels: Vec<Option<Txt>>,
    ) -> Result<Thing, LowerFault>
        requires { length labels.items < 2 ^ 32 }
        ensures given { IfOk result (λ thing. thing_of thing ≡ results (outputs_from first 0 labels.items)) }
        ensures kept { OnOk result (KeepsCall name.now (results (outputs_from first 0 labels.items)) self.old self.new) }
        ensures others { self.new ≡ record self.old { calls = self.new.calls } }
        ensures fault { IfErr result (λ e. e ≡ fault.Mem) }
    {
        let outputs = outputs_from(alloc, first, labels.as_slice())?;
        let thing = self.keep_call(alloc, name, outputs)?;
        Ok(thing)
    }
}

/// What an operator gives whose first output the port reads.
fn operator_gives(alloc: Global, row: Row, first: Port, labels: &[Txt]) -> Result<Thing, Mem>
    requires { length labels.now < 2 ^ 32 }
    ensures { IfOk result (λ thing. thing_of thing ≡ operator_gives row first labels.now) }
{
    match row {
        Row::Branch => labelled(alloc, first, labels),
        Row::MultiMap => labelled(alloc, first, labels),
        _ => Ok(Thing::Channel(first)),
    }
}

/// An output for each label, from the first one on, which the port reads.
fn labelled(alloc: Global, first: Port, labels: &[Txt]) -> Result<Thing, Mem>
    requires { length labels.now < 2 ^ 32 }
    ensures { IfOk result (λ thing. thing_of thing ≡ results (outputs_from first 0 (map as_name labels.now))) }
{
    let names = names_of(alloc, labels)?;
    let outputs = outputs_from(alloc, first, names.as_slice())?;
    Ok(Thing::Outputs(outputs))
}

/// These labels, each as the name of an output.
fn names_of(alloc: Global, labels: &[Txt]) -> Result<Vec<Option<Txt>>, Mem>
    ensures { IfOk result (λ names. names.items ≡ map as_name labels.now) }
{
    let mut names = Vec::new(alloc);
    for label in labels {
        names.push(Some(label.copy()?))?;
    }
    Ok(names)
}

/// The names of the outputs of a process.
fn output_labels(alloc: Global, outputs: &[Output]) -> Result<Vec<Option<Txt>>, Mem>
    ensures { IfOk result (λ labels. labels.items ≡ labels_of outputs.now) }
{
    let mut labels = Vec::new(alloc);
    for output in outputs {
        labels.push(copy_label(&output.emit)?)?;
    }
    Ok(labels)
}

/// The outputs of these names, from the first one on, which the port reads.
fn outputs_from(alloc: Global, first: Port, labels: &[Option<Txt>]) -> Result<Vec<CallOutput>, Mem>
    requires { length labels.now < 2 ^ 32 }
    ensures { IfOk result (λ outputs. map output_of outputs.items ≡ outputs_from first 0 labels.now) }
{
    let mut outputs = Vec::new(alloc);
    for (at, label) in labels.iter().enumerate() {
        let output = output_named(first, at as u32, label)?;
        outputs.push(output)?;
    }
    Ok(outputs)
}

/// Output `out` of the node whose first output the port reads, of this name.
fn output_named(first: Port, out: u32, label: &Option<Txt>) -> Result<CallOutput, Mem>
    ensures { IfOk result (λ output. output_of output ≡ named_at first out label.now) }
{
    let label = copy_label(label)?;
    let port = Port {
        from: first.from,
        out,
        value: first.value,
    };
    Ok(CallOutput { label, port })
}
