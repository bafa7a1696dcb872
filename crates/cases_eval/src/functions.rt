//! The functions that all rows know.

use crate::parsed::parsed;
use anyhow::{Result, bail};
use nf_ast::{ClosureBody, Expr, Function};
use nf_eval::Library;
use nf_value::Txt;
use std::alloc::Global;

/// Names, and closures with the parameters and bodies of the functions. Each is called by those after it alone.
const FUNCTIONS: &[(&str, &str)] = &[
    ("double", "{ n -> n * 2 }"),
    ("quadruple", "{ n -> double(double(n)) }"),
    ("early", "{ n -> late(n) }"),
    ("late", "{ n -> n }"),
    ("total", "{ a, b -> a + b }"),
    ("broken", "{ n -> n % 0 }"),
    ("alone", "{ -> x }"),
    ("sign", "{ n -> if (n < 0) { return 'minus' }; 'plus' }"),
    ("own", "{ n -> def y = n + 1; y * 10 }"),
    ("bounded", "{ n -> clamp(n, 1, 9) }"),
    ("again", "{ n -> n + 1 }"),
    ("again", "{ n -> again(n) * 10 }"),
    ("fits", "{ t -> t ==~ /a.c/ }"),
    ("shown", "{ fs -> \"$fs\" }"),
    ("doubles", "{ ns -> ns.collect { double(it) } }"),
];

/// A library of the functions, without patterns.
pub(crate) fn known_functions(alloc: Global) -> Result<Library> {
    let mut library = Library::new(alloc);
    for (name, code) in FUNCTIONS.iter().copied() {
        let function = function(alloc, name, code)?;
        library.add_function(function)?;
    }
    Ok(library)
}

/// A function with the parameters and the body of a closure.
fn function(alloc: Global, name: &str, code: &str) -> Result<Function> {
    let Expr::Closure(closure) = &parsed(alloc, code)? else {
        bail!("{name}: no closure");
    };
    let ClosureBody::Statements(statements) = &closure.body else {
        bail!("{name}: labels");
    };
    let Some(names) = &closure.params else {
        bail!("{name}: no arrow");
    };
    let mut params = Vec::new(alloc);
    for (place, name) in names {
        params.push((*place, name.copy()?))?;
    }
    let mut body = Vec::new(alloc);
    for statement in statements {
        body.push(statement.copy(alloc)?)?;
    }
    let place = closure.place;
    let name = Txt::of(String::from_str(alloc, name)?);
    Ok(Function {
        place,
        name_place: place,
        name,
        params,
        body,
    })
}
