//! The options, the inputs and the outputs of an operator.

ghost use Rattle.std.specs.Prelude.{◌≡◌, ◌↔◌, IsTrue};
ghost use Rattle.nf_bag.specs.Options.{Allows};
ghost use Rattle.nf_operator.specs.Row.{outs_of, takes_ports as takes};

use nf_bag::{OpOpts, Row};

/// Whether an operator allows these options: `combine` has no `by` but 0, and `ifEmpty` needs its value.
pub fn allows(row: Row, opts: &OpOpts) -> bool
    ensures { IsTrue result ↔ Allows row opts.now }
{
    match row {
        Row::Combine => opts.by.unwrap_or(0) == 0,
        Row::IfEmpty => opts.start.is_some(),
        _ => true,
    }
}

/// Whether an operator takes so many inputs. `mix` and `concat` take two or more, `join` and `combine` two, all others one.
pub fn takes_ports(row: Row, ports: usize) -> bool
    ensures { result ≡ takes row ports }
{
    match row {
        Row::Concat | Row::Mix => ports >= 2,
        Row::Combine | Row::Join => ports == 2,
        _ => ports == 1,
    }
}

/// How many outputs an operator has: those of its labels for `branch` and `multiMap`, one for all others.
pub fn outs(row: Row, opts: &OpOpts) -> u32
    ensures { result ≡ outs_of row opts.now }
{
    match row {
        Row::Branch | Row::MultiMap => opts.outs,
        _ => 1,
    }
}
