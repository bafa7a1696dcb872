//! Names that lead to channels.

ghost use Rattle.std.specs.Prelude.{◌≡◌, ◌||◌, is_some};
ghost use Rattle.nf_graph.specs.Meaning.{Bags};
ghost use Rattle.nf_meaning.specs.Expressions as meaning;
ghost use Rattle.nf_meaning.specs.Given.{tree_named};
ghost use Rattle.nf_meaning.specs.Names as spec;
ghost use Rattle.nf_meaning.specs.Stands.{ThingStands};
ghost use Rattle.nf_meaning.specs.Things as things;
ghost use Rattle.nf_callees.specs.Callee.{called_of};
ghost use Rattle.nf_callees.specs.Found.{defined_in};
ghost use Rattle.nf_scopes.specs.Things.{thing_of};

use nf_callees::{Callee, Definitions};
use nf_known::holds_file;
use nf_scopes::Thing;

/// `channel` or `Channel` (Nextflow reference documentation, "Channel factories"). Takes no memory.
pub fn is_channel_word(name: &str) -> bool
    ensures { result ≡ spec.is_channel_word name.now }
{
    name == "channel" || name == "Channel"
}

/// The word `channel`, a process or a workflow.
pub(crate) fn leads_to_channels(definitions: &Definitions<'_>, name: &str) -> bool
    ensures { result ≡ spec.leads_to_channels (defined_in definitions.now) name.now }
{
    is_channel_word(name) || is_defined(definitions, name)
}

/// A process or a workflow.
fn is_defined(definitions: &Definitions<'_>, name: &str) -> bool
    ensures { result ≡ (is_some (tree_named name.now (defined_in definitions.now).processes)
        || is_some (tree_named name.now (defined_in definitions.now).workflows)) }
{
    definitions.process(name).is_some() || definitions.workflow(name).is_some()
}

/// What is called leads to channels, or to a file.
pub(crate) fn call_leads(callee: &Callee<'_>) -> bool
    ensures { result ≡ meaning.call_leads (called_of callee.now) }
{
    match callee {
        Callee::Process(_) | Callee::Workflow(_) | Callee::File | Callee::Operator(_) => true,
        Callee::Function | Callee::Unknown => false,
    }
}

/// What is no value that is known before the run without files.
pub(crate) fn is_tied(thing: &Thing) -> bool
    ensures { (bags : Bags) (t : things.Thing) → ThingStands bags (thing_of thing.now) t → result ≡ meaning.is_tied t }
{
    match thing {
        Thing::Known(value) => holds_file(value),
        Thing::Channel(_) => true,
        Thing::Outputs(_) => true,
    }
}
