//! What a call's history says of the row.

use nf_machine::Event;
use nf_value::Mem;
use std::alloc::Global;

/// How many tasks it started.
pub(crate) fn starts_in(history: &[Event]) -> usize {
    history
        .iter()
        .filter(|event| matches!(event, Event::Start { .. }))
        .count()
}

/// How many takes of this node it has before the node's first give.
pub(crate) fn takes_in(alloc: Global, history: &[Event], node: u32) -> Result<usize, Mem> {
    let mut tickets: Vec<u32> = Vec::new(alloc);
    for event in history {
        match event {
            Event::Take {
                node: of,
                ticket,
                ..
            } if *of == node => tickets.push(*ticket)?,
            Event::Give { ticket, .. } if tickets.contains(ticket) => break,
            _ => {}
        }
    }
    Ok(tickets.len())
}
