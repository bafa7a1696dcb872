//! The columns of tuples.

ghost use Rattle.std.specs.Prelude.{◌≡◌, ◌≤◌, map, OnOk, IfOk, vec_len};
ghost use Rattle.std.specs.List.{range_with_len};
ghost use Rattle.nf_value.specs.View.{plain_of};
ghost use Rattle.nf_opjoin.specs.Grouped.{column, width, listed};
ghost use Rattle.nf_opjoin.specs.Columns.{with_cell, with_row};

use crate::tuples::parts;
use nf_bag::sorted;
use nf_value::{Mem, Vals, Value};
use std::alloc::Global;
use std::mem::replace;

/// The columns of these tuples, in order. Moves each item once.
pub(crate) fn columns_of(alloc: Global, tuples: Vals) -> Result<Vec<Vals>, Mem>
    ensures { IfOk result (λ v. v.items ≡ map (column tuples) (range_with_len 0 (width tuples))) }
{
    let mut columns = Vec::new(alloc);
    for tuple in tuples.into_items() {
        put_row(alloc, &mut columns, parts(alloc, tuple)?)?;
    }
    Ok(columns)
}

/// Adds each item to the column of its place.
fn put_row(alloc: Global, columns: &mut Vec<Vals>, row: Vals) -> Result<(), Mem>
    ensures { OnOk result (columns.new.items ≡ with_row columns.old.items row) }
{
    let mut place = 0usize;
    for item in row.into_items() {
        put_cell(alloc, columns, place, item)?;
        place += 1;
    }
    Ok(())
}

/// Adds an item to the column at a place, or as a new last column if there is none.
fn put_cell(alloc: Global, columns: &mut Vec<Vals>, place: usize, item: Value) -> Result<(), Mem>
    requires { place ≤ vec_len columns.old }
    ensures { OnOk result (columns.new.items ≡ with_cell columns.old.items place (plain_of item)) }
{
    if columns.len() <= place {
        let mut cells = Vec::new(alloc);
        cells.push(item)?;
        columns.push(Vals::of(cells))?;
        return Ok(());
    }
    let mut cells = replace(&mut columns[place], Vals::of(Vec::new(alloc))).into_items();
    cells.push(item)?;
    columns[place] = Vals::of(cells);
    Ok(())
}

/// Each column as a list, sorted if `sort`.
pub(crate) fn lists(alloc: Global, columns: Vec<Vals>, sort: bool) -> Result<Vec<Value>, Mem>
    ensures { IfOk result (λ v. map plain_of v.items ≡ map (listed sort) columns.items) }
{
    let mut lists = Vec::new(alloc);
    for column in columns {
        let column = if sort { sorted(column)? } else { column };
        lists.push(Value::List(column))?;
    }
    Ok(lists)
}
