//! Environments that share a library.

ghost use Rattle.std.specs.Prelude.{◌≡◌, IfOk};

use nf_ast::Function;
use nf_eval::{Env, Library, Scope};
use nf_pattern::WholeRe;
use nf_value::{Place, Txt, Value};
use std::alloc::{AllocError, Global};
use std::sync::Arc;
use std::test::Fail;

fn text(alloc: Global, text: &str) -> Result<Txt, AllocError> {
    Ok(Txt::of(String::from_str(alloc, text)?))
}

/// A function without parameters and statements.
fn function(alloc: Global, name: &str) -> Result<Function, AllocError> {
    let place = Place { line: 1, col: 1 };
    Ok(Function {
        place,
        name_place: place,
        name: text(alloc, name)?,
        params: Vec::new(alloc),
        body: Vec::new(alloc),
    })
}

fn pattern(alloc: Global, text: &Txt) -> Result<WholeRe, Fail>
    ensures { IfOk result (λ re. re ≡ text.now) }
{
    match WholeRe::new(alloc, text.as_str()) {
        Ok(re) => Ok(re),
        Err(_) => Err(Fail::from("no pattern")),
    }
}

/// The function `f` and the pattern `a+`.
fn library(alloc: Global) -> Result<Library, Fail> {
    let mut library = Library::new(alloc);
    library.add_function(function(alloc, "f")?)?;
    let text = text(alloc, "a+")?;
    let re = pattern(alloc, &text)?;
    library.add_pattern(text, re)?;
    Ok(library)
}

#[test]
fn a_library_has_what_was_added(rt: HostRuntime) -> Result<(), Fail> {
    let library = library(rt.alloc())?;
    assert!(rt; library.has_function("f"));
    assert!(rt; !library.has_function("g"));
    assert!(rt; library.has_pattern("a+"));
    assert!(rt; !library.has_pattern("a"));
    Ok(())
}

#[test]
fn environments_share_a_library(rt: HostRuntime) -> Result<(), Fail> {
    let alloc = rt.alloc();
    let mut first = Env::new(alloc, Arc::new(alloc, library(alloc)?)?);
    first.define(text(alloc, "x")?, Value::Null)?;
    let mut names = Scope::new(alloc);
    names.define(text(alloc, "y")?, Value::Null)?;
    let second = first.with_names(names)?;
    assert!(rt; first.has_name("x"));
    assert!(rt; !first.has_name("y"));
    assert!(rt; second.has_name("y"));
    assert!(rt; !second.has_name("x"));
    assert!(rt; first.has_function("f"));
    assert!(rt; second.has_function("f"));
    assert!(rt; second.has_pattern("a+"));
    Ok(())
}
