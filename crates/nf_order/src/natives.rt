//! Names that tables have: of sources, operators and methods.

ghost use Rattle.std.specs.Prelude.{◌≡◌, ◌++◌, ◌∷◌, [], map, IfOk, OnOk};
ghost use Rattle.nf_ast.specs.Tops.{view_top};
ghost use Rattle.nf_ast.specs.View.{trees};
ghost use Rattle.nf_builtins.specs.Natives.{is_among};
ghost use Rattle.nf_order.specs.Accepted.{undefined_of, unknown_functions as unknown_functions_of};
ghost use Rattle.nf_order.specs.Natives.{source_names, method_names};

use nf_ast::Top;
use nf_builtins::builtins;
use nf_optable::operators;
use nf_slips::{Definition, find_definition};
use nf_table::Named;
use nf_value::{Mem, Txt};
use std::alloc::Global;

/// The names of the sources.
const SOURCES: &[&str] = &[
    "value",
    "of",
    "fromList",
    "empty",
    "fromPath",
    "fromFilePairs",
];

/// Whether a source or a method has the name.
pub(crate) fn is_source_or_method(alloc: Global, name: &str) -> Result<bool, Mem>
    ensures { IfOk result (λ b. b ≡ is_among name.now (source_names ++ method_names)) }
{
    if is_source(name) {
        return Ok(true);
    }
    let table = builtins(alloc)?;
    Ok(has_row(table.rows(), name))
}

fn is_source(name: &str) -> bool
    ensures { result ≡ is_among name.now source_names }
{
    is_listed(SOURCES, name)
}

fn is_listed(names: &[&str], name: &str) -> bool
    ensures { result ≡ is_among name.now (map (λ n. n.now) names.now) }
{
    for other in names {
        if *other == name {
            return true;
        }
    }
    false
}

/// Whether a row of a table has the name.
fn has_row<R: Named>(rows: &[R], name: &str) -> bool
    ensures { result ≡ is_among name.now (map R.label rows.now) }
{
    for row in rows {
        if row.name() == name {
            return true;
        }
    }
    false
}

/// The names of tables that the script doesn't define.
pub(crate) fn unknown_functions(alloc: Global, tops: &[Top]) -> Result<Vec<Txt>, Mem>
    ensures { IfOk result (λ v. v.items ≡ unknown_functions_of (trees (map view_top tops.now))) }
{
    let mut names = Vec::new(alloc);
    add_listed(alloc, tops, SOURCES, &mut names)?;
    let operators = operators(alloc)?;
    add_rows(alloc, tops, operators.rows(), &mut names)?;
    let methods = builtins(alloc)?;
    add_rows(alloc, tops, methods.rows(), &mut names)?;
    Ok(names)
}

/// Adds those of the names that the script doesn't define.
fn add_listed(alloc: Global, tops: &[Top], listed: &[&str], names: &mut Vec<Txt>) -> Result<(), Mem>
    ensures { OnOk result (names.new.items ≡ names.old.items
        ++ undefined_of (trees (map view_top tops.now)) (map (λ n. n.now) listed.now)) }
{
    for name in listed {
        add_undefined(alloc, tops, name, names)?;
    }
    Ok(())
}

/// Adds the names of those rows that the script doesn't define.
fn add_rows<R: Named>(
    alloc: Global,
    tops: &[Top],
    rows: &[R],
    names: &mut Vec<Txt>,
) -> Result<(), Mem>
    ensures { OnOk result (names.new.items ≡ names.old.items
        ++ undefined_of (trees (map view_top tops.now)) (map R.label rows.now)) }
{
    for row in rows {
        add_undefined(alloc, tops, row.name(), names)?;
    }
    Ok(())
}

/// Adds a name, if the script doesn't define it.
fn add_undefined(alloc: Global, tops: &[Top], name: &str, names: &mut Vec<Txt>) -> Result<(), Mem>
    ensures { OnOk result (names.new.items ≡ names.old.items
        ++ undefined_of (trees (map view_top tops.now)) (name.now ∷ [])) }
{
    if let Definition::Nothing = find_definition(tops, name) {
        names.push(Txt::of(String::from_str(alloc, name)?))?;
    }
    Ok(())
}
