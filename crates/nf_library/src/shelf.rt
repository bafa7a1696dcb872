//! `Shelf`: a library with the texts of its patterns.

ghost use Rattle.std.specs.Prelude.{◌≡◌, ◌∷◌, [], map, IfOk, OnOk};
ghost use Rattle.nf_ast.specs.Tops.{view_top};
ghost use Rattle.nf_ast.specs.View.{trees};
ghost use Rattle.nf_callees.specs.Found.{defined_in};
ghost use Rattle.nf_eval.specs.Memory.{definitions_of, patterns_of};
ghost use Rattle.nf_known.specs.Patterns.{HasTexts};
ghost use Rattle.nf_meaning.specs.Functions.{in_order};
ghost use Rattle.nf_pattern.specs.Whole.{IsFaultOf, IsPattern};
ghost use Rattle.nf_pattern.specs.Wrapped.{wrapped};
ghost use Rattle.nf_library.specs.Patterns.{kind_patterns, pattern_texts, used_patterns};
ghost use Rattle.nf_library.specs.Shelves.{Adds, AreSplit, large_in};

use crate::order::add_in_order;
use crate::places::add_tops;
use crate::texts::add_key;
use indexmap::IndexSet;
use nf_ast::Top;
use nf_eval::Library;
use nf_known::PatternTexts;
use nf_names_used::{Use, UseKind};
use nf_pattern::{PatternFault, WholeRe};
use nf_value::{Mem, Txt};
use std::alloc::Global;

/// What a script's expressions share (own): functions and patterns, and the texts of the patterns.
#[derive(Drop)]
pub struct Shelf {
    /// The functions and the patterns that are built.
    pub library: Library,
    /// The texts of these patterns, and of those that are too large.
    pub texts: PatternTexts,
}

impl Shelf {
    /// The library of a script (own): its functions, each after those that it calls, and the patterns of all its
    /// places, which are the bodies of functions and workflows, what is emitted, parameters, and the directives,
    /// outputs and tasks of processes. A text in which the grammar of `regex` reads no pattern is left out. Takes time
    /// by the size of the script, and by the number of functions for each function that waits for another.
    ///
    /// # Errors
    ///
    /// `Mem` for want of memory.
    pub fn of_script(alloc: Global, tops: &[Top]) -> Result<Shelf, Mem>
        ensures functions { IfOk result (λ x. definitions_of x.library ≡ in_order (defined_in tops.now).functions) }
        ensures built { IfOk result (λ x. HasTexts x.texts.built.keys (patterns_of x.library)) }
        ensures large { IfOk result (λ x. HasTexts x.texts.large.keys (large_in x.texts)) }
        ensures split { IfOk result (λ x. AreSplit (pattern_texts (trees (map view_top tops.now)))
            (patterns_of x.library) (large_in x.texts)) }
    {
        let mut shelf = Shelf::empty(alloc);
        add_in_order(alloc, tops, &mut shelf.library)?;
        add_tops(alloc, tops, &mut shelf)?;
        Ok(shelf)
    }

    /// Nothing so far.
    fn empty(alloc: Global) -> Shelf
        ensures functions { definitions_of result.library ≡ [] }
        ensures built { result.texts.built.keys ≡ [] }
        ensures large { result.texts.large.keys ≡ [] }
        ensures patterns { patterns_of result.library ≡ [] }
    {
        Shelf {
            library: Library::new(alloc),
            texts: PatternTexts {
                built: IndexSet::new(alloc),
                large: IndexSet::new(alloc),
            },
        }
    }

    /// Adds the patterns among these uses.
    pub(crate) fn add_uses(&mut self, alloc: Global, uses: &[Use]) -> Result<(), Mem>
        ensures { OnOk result (Adds (used_patterns uses.now) self.old self.new) }
    {
        for one in uses {
            self.add_use(alloc, one)?;
        }
        Ok(())
    }

    fn add_use(&mut self, alloc: Global, one: &Use) -> Result<(), Mem>
        ensures { OnOk result (Adds (kind_patterns one.now.kind one.now.text) self.old self.new) }
    {
        match one.kind {
            UseKind::Pattern => self.add_text(alloc, &one.text),
            UseKind::Name => Ok(()),
            UseKind::Assigned => Ok(()),
            UseKind::Again => Ok(()),
            UseKind::Function => Ok(()),
        }
    }

    /// Adds the pattern of a text, unless it is known.
    fn add_text(&mut self, alloc: Global, text: &Txt) -> Result<(), Mem>
        ensures { OnOk result (Adds (text.now ∷ []) self.old self.new) }
    {
        if self.texts.built.contains(text.as_str()) {
            return Ok(());
        }
        if self.texts.large.contains(text.as_str()) {
            return Ok(());
        }
        match WholeRe::new(alloc, text.as_str()) {
            Ok(re) => self.add_built(alloc, text, re),
            Err(fault) => self.add_unbuilt(alloc, text, fault),
        }
    }

    /// Adds a text of which no pattern was built.
    fn add_unbuilt(&mut self, alloc: Global, text: &Txt, fault: PatternFault) -> Result<(), Mem>
        requires { IsFaultOf (wrapped text.now) fault }
        ensures { OnOk result (Adds (text.now ∷ []) self.old self.new) }
    {
        match fault {
            PatternFault::NoPattern => Ok(()),
            PatternFault::TooLarge => self.add_large(alloc, text),
            PatternFault::Mem => Err(Mem),
        }
    }

    fn add_built(&mut self, alloc: Global, text: &Txt, re: WholeRe) -> Result<(), Mem>
        requires built { text.now ≡ re }
        requires pattern { IsPattern (wrapped text.now) }
        ensures { OnOk result (Adds (text.now ∷ []) self.old self.new) }
    {
        add_key(alloc, text, &mut self.texts.built)?;
        self.library.add_pattern(text.copy()?, re)?;
        Ok(())
    }

    fn add_large(&mut self, alloc: Global, text: &Txt) -> Result<(), Mem>
        requires { IsPattern (wrapped text.now) }
        ensures { OnOk result (Adds (text.now ∷ []) self.old self.new) }
    {
        add_key(alloc, text, &mut self.texts.large)
    }
}
