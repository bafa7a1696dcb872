//! Takes in flight, and what is kept of takes.

use nf_flight::{Flights, KeptInputs, Ticket};
use nf_value::{Vals, Value};
use std::test::Fail;

#[test]
fn a_ticket_tells_its_take(rt: HostRuntime) -> Result<(), Fail> {
    let alloc = rt.alloc();
    let inputs = Vals::of(vec![in alloc; Value::Int(5)]?);
    let ticket = Ticket::new(7, 2, 1, inputs, 3);
    assert_eq!(rt; ticket.number(), 7);
    assert_eq!(rt; ticket.node(), 2);
    assert_eq!(rt; ticket.port(), 1);
    assert_eq!(rt; ticket.n(), 3);
    assert_eq!(rt; ticket.attempt(), 1);
    assert_eq!(rt; ticket.inputs().len(), 1);
    assert_eq!(rt; ticket.into_inputs().len(), 1);
    Ok(())
}

#[test]
fn a_ticket_goes_on_to_its_next_attempt(rt: HostRuntime) -> Result<(), Fail> {
    let ticket = Ticket::new(7, 2, 1, Vals::of(Vec::new(rt.alloc())), 3).again();
    assert_eq!(rt; ticket.attempt(), 2);
    assert_eq!(rt; ticket.number(), 7);
    Ok(())
}

#[test]
fn flights_are_found_by_their_numbers(rt: HostRuntime) -> Result<(), Fail> {
    let mut flights = Flights::begin(rt.alloc(), 2)?;
    let first = flights.add(1)?;
    let second = flights.add(1)?;
    assert_eq!(rt; first, 1);
    assert_eq!(rt; second, 2);
    assert_eq!(rt; flights.in_flight(), 2);
    assert_eq!(rt; flights.of_node(1), 2);
    assert_eq!(rt; flights.of_node(0), 0);
    flights.start(2);
    assert!(rt; flights.is_started(2));
    flights.again(2);
    assert!(rt; !flights.is_started(2));
    flights.leave(1);
    assert_eq!(rt; flights.of_node(1), 1);
    Ok(())
}

#[test]
fn inputs_are_kept_by_numbers(rt: HostRuntime) -> Result<(), Fail> {
    let alloc = rt.alloc();
    let mut kept = KeptInputs::new(alloc);
    kept.add(None)?;
    kept.add(Some(Vals::of(Vec::new(alloc))))?;
    assert!(rt; kept.of(0).is_none());
    assert!(rt; kept.of(1).is_none());
    assert!(rt; kept.of(2).is_some());
    assert!(rt; kept.of(3).is_none());
    Ok(())
}
