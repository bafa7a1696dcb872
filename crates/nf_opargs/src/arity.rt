//! How many arguments an operator takes.

ghost use Rattle.std.specs.Prelude.{◌≡◌, ◌≤◌, ◌<◌, IfSome};
ghost use Rattle.nf_meaning.specs.Taken as spec;

use nf_optable::{Args, ClosureUse, OpRow};

/// Whether an operator takes so many arguments without a name, its closure among them (Nextflow reference documentation, "Operators").
pub fn takes(row: OpRow, count: usize) -> bool
    ensures { result ≡ spec.takes row count }
{
    least(row.args) + closure_least(row.closure) <= count
        && is_at_most(most(row.args), closure_most(row.closure), count)
}

/// The channels that a call with so many arguments without a name reads, the one that it is called on among them.
pub fn ports_of(row: OpRow, count: usize) -> usize
    requires { count < usize.MAX }
    ensures { result ≡ spec.ports_of row count }
{
    match row.args {
        Args::Channel | Args::Channels => 1 + count,
        Args::Nothing | Args::Value | Args::MaybeValue | Args::Values => 1,
    }
}

fn least(args: Args) -> usize
    ensures least { result ≡ (spec.args_bounds args).least }
    ensures small { result ≤ 1 }
{
    match args {
        Args::Channel | Args::Channels | Args::Value | Args::Values => 1,
        Args::Nothing | Args::MaybeValue => 0,
    }
}

/// The most arguments beside the closure; `None` where there is no bound.
fn most(args: Args) -> Option<usize>
    ensures most { result ≡ (spec.args_bounds args).most }
    ensures small { IfSome result (λ n. n ≤ 1) }
{
    match args {
        Args::Nothing => Some(0),
        Args::Channel | Args::Value | Args::MaybeValue => Some(1),
        Args::Channels | Args::Values => None,
    }
}

fn closure_least(closure: ClosureUse) -> usize
    ensures least { result ≡ spec.closure_least closure }
    ensures small { result ≤ 1 }
{
    match closure {
        ClosureUse::Must | ClosureUse::Labels | ClosureUse::Name | ClosureUse::Total => 1,
        ClosureUse::Never | ClosureUse::May | ClosureUse::InPlace | ClosureUse::Refused => 0,
    }
}

fn closure_most(closure: ClosureUse) -> usize
    ensures most { result ≡ spec.closure_most closure }
    ensures small { result ≤ 1 }
{
    match closure {
        ClosureUse::Never | ClosureUse::InPlace => 0,
        ClosureUse::Must
        | ClosureUse::Labels
        | ClosureUse::Name
        | ClosureUse::Total
        | ClosureUse::May
        | ClosureUse::Refused => 1,
    }
}

fn is_at_most(most: Option<usize>, more: usize, count: usize) -> bool
    requires most { IfSome most (λ n. n ≤ 1) }
    requires more { more ≤ 1 }
    ensures { result ≡ spec.is_at_most most more count }
{
    match most {
        Some(most) => count <= most + more,
        None => true,
    }
}
