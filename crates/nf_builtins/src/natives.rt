//! Functions that a program adds to a script's language.

ghost use Rattle.std.specs.Prelude.{◌≡◌, ◌<◌, ◌^◌, true, length, slice_get, Some};
ghost use Rattle.nf_builtins.specs.Natives.{AnswersNative, are_native_names};

use nf_texts::CallFault;
use nf_value::{Txt, Vals, Value};
use std::alloc::Global;
use std::marker::Model;

/// The functions that a program adds, each with its answer (own). Their names are no keywords and no names of methods.
pub trait Natives {
    ghost use Rattle.std.specs.Prelude.{List, ℕ, Option};
    ghost use Rattle.nf_value.specs.Plain.{Plain};

    ghost titles: { Self → List (List ℕ) };

    ghost answer: { Self → ℕ → List Plain → Option Plain };

    ghost keeps: { Self → Type 0 };

    /// How many there are.
    fn count(&self) -> u32
        ensures count { result ≡ length (titles self.now) }
        ensures proper { are_native_names (titles self.now) ≡ true };

    /// The name of one of them, numbered from 0.
    fn name(&self, id: u32) -> &str
        requires { id < length (titles self.now) }
        ensures { slice_get (titles self.now) id ≡ Some result.now };

    /// What one of them answers.
    ///
    /// # Errors
    ///
    /// `Kind(Native)` where it has no answer, `Mem` where there is no memory for it.
    fn call(&self, alloc: Global, id: u32, args: &Vals) -> Result<Value, CallFault>
        requires id { id < length (titles self.now) }
        requires kept { keeps self.now }
        ensures { AnswersNative (answer self.now id args.now) result };
}

/// The answers of functions, by the functions' numbers. It has no method: only contracts speak of it.
pub trait NativeBook {
    ghost use Rattle.std.specs.Prelude.{List, ℕ, Option};
    ghost use Rattle.nf_value.specs.Plain.{Plain};

    ghost told: { Self → ℕ → List Plain → Option Plain };
}

/// Names that a program's functions may have.
#[derive(Drop)]
struct Names {
    entries: Vec<Txt>,
}

impl Model for Names {
    ghost use Rattle.std.specs.Prelude.{List, ℕ, ◌≡◌, true, ◌<◌, ◌^◌, length};
    ghost use Rattle.nf_builtins.specs.Natives.{are_native_names};

    ghost Value = { List (List ℕ) };

    ghost view = { λ n. n.entries.items };

    ghost invariant = { λ n. (are_native_names n.entries.items ≡ true) × (length n.entries.items < 2 ^ 32) };
}

impl Names {
    fn of(entries: Vec<Txt>) -> Names
        requires proper { are_native_names entries.items ≡ true }
        requires few { length entries.items < 2 ^ 32 }
        ensures { result ≡ entries.items }
    {
        Names { entries }
    }

    fn count(&self) -> u32
        ensures count { result ≡ length self.now }
        ensures proper { are_native_names self.now ≡ true }
    {
        self.entries.len() as u32
    }

    fn name(&self, id: u32) -> &str
        requires { id < length self.now }
        ensures { slice_get self.now id ≡ Some result.now }
    {
        self.entries[id as usize].as_str()
    }
}

/// Functions that are run by one closure. `book` says what they answer; that the closure answers so has to hold where it is called.
#[derive(Drop)]
pub struct StoredNatives<B, F> {
    names: Names,
    book: B,
    run: F,
}

impl<B: NativeBook, F: Fn(Global, u32, &Vals) -> Result<Value, CallFault>> StoredNatives<B, F> {
    /// The functions of these names, with the answers of the book, run by the closure. Takes no memory.
    pub fn new(names: Vec<Txt>, book: B, run: F) -> StoredNatives<B, F>
        requires proper { are_native_names names.items ≡ true }
        requires few { length names.items < 2 ^ 32 }
        ensures names { result.names ≡ names.items }
        ensures book { result.book ≡ book }
        ensures run { result.run ≡ run }
    {
        StoredNatives {
            names: Names::of(names),
            book,
            run,
        }
    }
}

impl<B: NativeBook, F: Fn(Global, u32, &Vals) -> Result<Value, CallFault>> Natives
    for StoredNatives<B, F> {
    ghost use Rattle.std.specs.Prelude.{ℕ, length, ◌<◌};
    ghost use Rattle.nf_builtins.specs.Natives.{AnswersNative};

    ghost titles = { λ s. s.names };

    ghost answer = { λ s. B.told s.book };

    ghost keeps = { λ s. F.IsAlwaysCallable s.run × ((alloc : _) (id : ℕ) (args : _) (r : _) → id < length s.names → F.post s.run alloc id args r → AnswersNative (B.told s.book id args.now) r) };

    fn count(&self) -> u32 {
        self.names.count()
    }

    fn name(&self, id: u32) -> &str {
        self.names.name(id)
    }

    fn call(&self, alloc: Global, id: u32, args: &Vals) -> Result<Value, CallFault> {
        (self.run)(alloc, id, args)
    }
}
