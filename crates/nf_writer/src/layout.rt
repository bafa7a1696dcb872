//! How the parts of a body stand: each on a line of its own, or all on one line.

ghost use Rattle.std.specs.Prelude.{◌≡◌, ◌++◌, IfOk, OnOk};
ghost use Rattle.nf_writer.specs.Ink.{inked};
ghost use Rattle.nf_writer.specs.Lines.{is_inline as is_inline_of, deeper as deeper_of, before_first, between as between_of, after_last, outside};
ghost use Rattle.nf_writer.specs.Styles.{layout_of};

use crate::writer::Writer;
use nf_value::Mem;
use std::alloc::Global;

/// Where the parts of a body stand, as the statements between braces.
#[derive(Drop)]
pub enum Margin {
    /// Each on a line of its own, which begins with these blanks.
    Lines(Vec<u8>),
    /// All on one line, as in a hole of a template.
    Inline,
}

impl Margin {
    /// Lines that begin with no blank, as those outside of all braces.
    pub fn outside(alloc: Global) -> Margin
        ensures { layout_of result ≡ outside }
    {
        Margin::Lines(Vec::new(alloc))
    }

    /// Whether all parts stand on one line.
    pub fn is_inline(&self) -> bool
        ensures { result ≡ is_inline_of (layout_of self.now) }
    {
        match self {
            Margin::Lines(_) => false,
            Margin::Inline => true,
        }
    }

    /// The margin inside one more pair of braces: four blanks more.
    ///
    /// # Errors
    ///
    /// `Mem` where there is no memory for the blanks.
    pub fn deeper(&self) -> Result<Margin, Mem>
        ensures { IfOk result (λ m. layout_of m ≡ deeper_of (layout_of self.now)) }
    {
        match self {
            Margin::Inline => Ok(Margin::Inline),
            Margin::Lines(blanks) => {
                let mut inner = blanks.clone()?;
                inner.extend_from_slice(b"    ")?;
                Ok(Margin::Lines(inner))
            }
        }
    }

    /// Prints what stands before the first part of a body: a line end with the margin, or a blank.
    pub fn before_first(&self, out: &mut Writer) -> Result<(), Mem>
        ensures { OnOk result (out.new ≡ out.old ++ inked (before_first (layout_of self.now))) }
    {
        match self {
            Margin::Lines(blanks) => out.line(blanks),
            Margin::Inline => out.blank(),
        }
    }

    /// Prints what stands between two parts: a line end with the margin, or `; `.
    pub fn between(&self, out: &mut Writer) -> Result<(), Mem>
        ensures { OnOk result (out.new ≡ out.old ++ inked (between_of (layout_of self.now))) }
    {
        match self {
            Margin::Lines(blanks) => out.line(blanks),
            Margin::Inline => {
                out.separator()?;
                out.blank()
            }
        }
    }

    /// Prints what stands after the last part: a line end with the margin, or a blank.
    pub fn after_last(&self, out: &mut Writer) -> Result<(), Mem>
        ensures { OnOk result (out.new ≡ out.old ++ inked (after_last (layout_of self.now))) }
    {
        self.before_first(out)
    }
}
