//! The names that an expression sees within the bodies that hold it.

ghost use Rattle.std.specs.Prelude.{◌≡◌, ◌∷◌, ◌++◌, [], ℕ, List, IfOk, OnOk};
ghost use Rattle.nf_ast.specs.View.{names as names_tree};
ghost use Rattle.nf_placed.specs.Natives.{is_among};
ghost use Rattle.nf_placed.specs.Body.{names_in};

use nf_value::{Mem, Place, Txt};
use std::alloc::Global;
use std::marker::Model;

/// The names of a body, those of them that a `def` between the present braces defined, and the names around the body.
#[derive(Drop)]
pub(crate) struct Seen {
    captured: Vec<Txt>,
    own: Vec<Txt>,
    body: Vec<Txt>,
}

impl Model for Seen {
    ghost use Rattle.nf_names_used.specs.Uses.{Names};

    ghost Value = { Names };

    ghost view = { λ s. record { captured = s.captured.items; own = s.own.items; body = s.body.items } };
}

impl Seen {
    ghost use Rattle.nf_names_used.specs.Uses.{no_names, is_seen, defined, begun, entered};

    /// No names.
    pub(crate) fn nothing(alloc: Global) -> Seen
        ensures { result ≡ no_names }
    {
        Seen {
            captured: Vec::new(alloc),
            own: Vec::new(alloc),
            body: Vec::new(alloc),
        }
    }

    /// Whether a name is seen.
    pub(crate) fn sees(&self, name: &str) -> bool
        ensures { result ≡ is_seen name.now self.now }
    {
        has_name(&self.captured, name) || has_name(&self.own, name)
    }

    /// Whether a name is one of the body's own.
    pub(crate) fn owns(&self, name: &str) -> bool
        ensures { result ≡ is_among name.now self.now.own }
    {
        has_name(&self.own, name)
    }

    /// The names that a `def` between the present braces defined.
    pub(crate) fn body(&self) -> &[Txt]
        ensures { result.now ≡ self.now.body }
    {
        &self.body
    }

    /// Adds a name that a statement defines.
    pub(crate) fn define(&mut self, name: &Txt) -> Result<(), Mem>
        ensures { OnOk result (self.new ≡ defined (name.now ∷ []) self.old) }
    {
        self.own.push(name.copy()?)?;
        self.body.push(name.copy()?)?;
        Ok(())
    }

    /// Adds names that a statement defines.
    pub(crate) fn define_all(&mut self, names: &[(Place, Txt)]) -> Result<(), Mem>
        ensures { OnOk result (self.new ≡ defined (names_in (names_tree names.now)) self.old) }
    {
        add_names(names, &mut self.own)?;
        add_names(names, &mut self.body)
    }

    /// What a closure with these parameters sees before its first statement.
    pub(crate) fn inside(&self, params: Vec<Txt>, alloc: Global) -> Result<Seen, Mem>
        ensures { IfOk result (λ s. s ≡ entered params.items self.now) }
    {
        let mut captured = copies(alloc, &self.captured)?;
        add_copies(&self.own, &mut captured)?;
        let body = Vec::new(alloc);
        Ok(Seen {
            captured,
            own: params,
            body,
        })
    }

    /// The same names, where statements begin that have braces of their own.
    pub(crate) fn begun(&self, alloc: Global) -> Result<Seen, Mem>
        ensures { IfOk result (λ s. s ≡ begun self.now) }
    {
        let captured = copies(alloc, &self.captured)?;
        let own = copies(alloc, &self.own)?;
        let body = Vec::new(alloc);
        Ok(Seen {
            captured,
            own,
            body,
        })
    }
}

/// Whether a text is among these.
pub(crate) fn has_name(names: &[Txt], name: &str) -> bool
    ensures { result ≡ is_among name.now names.now }
{
    for other in names {
        if other.as_str() == name {
            return true;
        }
    }
    false
}

/// The same texts.
pub(crate) fn copies(alloc: Global, texts: &[Txt]) -> Result<Vec<Txt>, Mem>
    ensures { IfOk result (λ v. v.items ≡ texts.now) }
{
    let mut copies = Vec::new(alloc);
    add_copies(texts, &mut copies)?;
    Ok(copies)
}

/// The same texts after others.
pub(crate) fn add_copies(texts: &[Txt], out: &mut Vec<Txt>) -> Result<(), Mem>
    ensures { OnOk result (out.new.items ≡ out.old.items ++ texts.now) }
{
    for text in texts {
        out.push(text.copy()?)?;
    }
    Ok(())
}

/// The names of a list after others.
pub(crate) fn add_names(names: &[(Place, Txt)], out: &mut Vec<Txt>) -> Result<(), Mem>
    ensures { OnOk result (out.new.items ≡ out.old.items ++ names_in (names_tree names.now)) }
{
    for (_, name) in names {
        out.push(name.copy()?)?;
    }
    Ok(())
}
