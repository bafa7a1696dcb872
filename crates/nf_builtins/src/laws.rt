//! Laws of the table of methods, each as a contract over the definitions alone.

ghost use Rattle.std.specs.Prelude.{All};
ghost use Rattle.nf_builtins.specs.Call.{builtin_rows};
ghost use Rattle.nf_builtins.specs.Reading.{IsReadAsSaid};

/// A row without a closure is no method (`NoMethod`) exactly on the values that its `on` leaves out, whatever the arguments; those of `Math`, which read no
/// receiver, are methods always.
pub fn rows_are_read_as_said()
    ensures { All IsReadAsSaid builtin_rows }
{}
