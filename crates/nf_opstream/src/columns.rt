//! What `transpose` makes of one tuple.

ghost use Rattle.std.specs.Prelude.{◌≡◌, Ok, IfOk, MatchResult, map, get_or};
ghost use Rattle.std.specs.List.{range_with_len};
ghost use Rattle.nf_value.specs.Plain.{null};
ghost use Rattle.nf_value.specs.View.{plain_of};
ghost use Rattle.nf_opstream.specs.Promise.{emits_of, IsFault};
ghost use Rattle.nf_opstream.specs.Columns.{length_of as due_length, lesser as due_lesser, shortest as due_shortest, at_place, tuple_at as due_tuple, transposed_list};
ghost use Rattle.nf_opstream.specs.Rows.{first_out};

use crate::emits::{judge, one};
use nf_bag::OpFault;
use nf_value::{Mem, Vals, Value};
use std::alloc::Global;

/// One tuple for each place of the shortest column that is a list; the tuple itself if no column is a list.
pub(crate) fn transposed(alloc: Global, list: Vals) -> Result<Vec<(u32, Value)>, OpFault>
    ensures { let due = transposed_list list in MatchResult result (λ es. due ≡ Ok (emits_of es.items)) (IsFault due) }
{
    match shortest(list.items()) {
        None => one(alloc, 0, Value::List(list)),
        Some(count) => {
            let emits = tuples(alloc, list.items(), count)?;
            judge(emits)
        }
    }
}

fn tuples(alloc: Global, columns: &[Value], count: usize) -> Result<Vec<(u32, Value)>, Mem>
    ensures { IfOk result (λ es. emits_of es.items ≡ first_out (map (due_tuple (map plain_of columns.now)) (range_with_len 0 count))) }
{
    let mut emits = Vec::new(alloc);
    for place in 0..count {
        let tuple = tuple_at(alloc, columns, place)?;
        emits.push((0, tuple))?;
    }
    Ok(emits)
}

fn tuple_at(alloc: Global, columns: &[Value], place: usize) -> Result<Value, Mem>
    ensures { IfOk result (λ v. plain_of v ≡ due_tuple (map plain_of columns.now) place) }
{
    let mut items = Vec::new(alloc);
    for column in columns {
        let item = cell(column, place)?;
        items.push(item)?;
    }
    Ok(Value::List(Vals::of(items)))
}

fn cell(column: &Value, place: usize) -> Result<Value, Mem>
    ensures { IfOk result (λ v. plain_of v ≡ at_place place (plain_of column.now)) }
{
    match column {
        Value::List(list) => item_at(list, place),
        other => other.copy(),
    }
}

fn item_at(list: &Vals, place: usize) -> Result<Value, Mem>
    ensures { IfOk result (λ v. plain_of v ≡ get_or list.now place null) }
{
    match list.items().get(place) {
        Some(item) => item.copy(),
        None => Ok(Value::Null),
    }
}

/// The length of the shortest column that is a list.
fn shortest(columns: &[Value]) -> Option<usize>
    ensures { result ≡ due_shortest (map plain_of columns.now) }
{
    let mut least = None;
    for column in columns {
        least = lesser(least, length_of(column));
    }
    least
}

fn length_of(column: &Value) -> Option<usize>
    ensures { result ≡ due_length (plain_of column.now) }
{
    match column {
        Value::List(list) => Some(list.len()),
        _ => None,
    }
}

fn lesser(a: Option<usize>, b: Option<usize>) -> Option<usize>
    ensures { result ≡ due_lesser a b }
{
    match (a, b) {
        (Some(m), Some(n)) => Some(m.min(n)),
        (None, n) => n,
        (m, None) => m,
    }
}
