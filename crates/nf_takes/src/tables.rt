//! What the body of a workflow knows as it begins.

ghost use Rattle.std.specs.Prelude.{List, IfOk, OnOk, map};
ghost use Rattle.nf_ast.specs.View.{name_tree};
ghost use Rattle.nf_graph.specs.Meaning.{Bags};
ghost use Rattle.nf_meaning.specs.Nodes.{PortsStand};
ghost use Rattle.nf_meaning.specs.Script as meaning;
ghost use Rattle.nf_meaning.specs.Things.{Channel};
ghost use Rattle.nf_scopes.specs.Tables.{Puts, TableStands};
ghost use Rattle.nf_scopes.specs.declared.things.Thing.TheVariants as thing;
ghost use Rattle.nf_takes.specs.Takes.{OnlyPorts};

use indexmap::IndexMap;
use nf_graph::Port;
use nf_scopes::Thing;
use nf_value::{Mem, Place, Txt};
use std::alloc::Global;

/// Each name that a workflow takes, with the channel at its place among those that it is called with (Nextflow
/// reference documentation, "Workflows", "Taking inputs"). Of two of one name the later counts.
///
/// # Errors
///
/// `Mem` for want of memory.
pub fn bound(
    alloc: Global,
    names: &[(Place, Txt)],
    ports: &[Port],
) -> Result<IndexMap<String, Thing>, Mem>
    ensures stands { IfOk result (λ table. (bags : Bags) (cs : List Channel) → PortsStand bags ports.now cs
        → TableStands bags table.entries (meaning.bound (map name_tree names.now) cs)) }
    ensures only { IfOk result (λ table. OnlyPorts ports.now table.entries) }
{
    let mut table = IndexMap::new(alloc);
    for (at, (_, name)) in names.iter().enumerate() {
        if let Some(port) = ports.get(at) {
            put_port(alloc, &mut table, name, *port)?;
        }
    }
    Ok(table)
}

fn put_port(
    alloc: Global,
    table: &mut IndexMap<String, Thing>,
    name: &Txt,
    port: Port,
) -> Result<(), Mem>
    ensures { OnOk result (Puts name.now (thing.Channel port) table.old.entries table.new.entries) }
{
    table.insert(
        String::from_str(alloc, name.as_str())?,
        Thing::Channel(port),
    )?;
    Ok(())
}
