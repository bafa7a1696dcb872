//! What an operator wants of an argument without a name.

ghost use Rattle.std.specs.Prelude.{◌≡◌, false};
ghost use Rattle.nf_arguments.specs.Args.{written_arg};
ghost use Rattle.nf_meaning.specs.Arguments.{is_closure};
ghost use Rattle.nf_meaning.specs.Taken as meaning;
ghost use Rattle.nf_taken.specs.Rows.{IsRowOf};
ghost use Rattle.nf_taken.specs.Taken.{is_labelled};
ghost use Rattle.nf_taken.specs.Wanted.{FitsWanted, IsLastOrPlain, IsPlainOf, ports_in, wanted_walk};

use crate::shapes::pattern_in;
use nf_arguments::Written;
use nf_bag::Row;
use nf_optable::{Args, ClosureUse, OpRow};
use nf_value::{Place, Txt};

/// What an operator wants of an argument without a name (Nextflow reference documentation, "Operators").
#[derive(Drop, Clone, Copy)]
pub enum Wanted<'e> {
    /// That it stands for a channel, which is read too.
    Channel,
    /// That it stands for a value, with which `ifEmpty` or `reduce` begins.
    Start,
    /// That it stands for a value, with which `filter` compares.
    Literal,
    /// What can be taken without knowing what it stands for.
    Alone(Alone<'e>),
}

/// What can be taken of an argument without knowing what it stands for.
#[derive(Drop, Clone, Copy)]
pub enum Alone<'e> {
    /// A closure that is applied to items.
    Closure,
    /// A closure that gives the value of `ifEmpty`.
    Filling,
    /// A closure of labels.
    Labels,
    /// A closure that is just a name.
    Word,
    /// A closure that stands for a total.
    Total,
    /// A pattern, with its place.
    Pattern(Place, &'e Txt),
    /// Nothing may stand there.
    Nothing,
}

/// What the operator of a row wants of an argument without a name, which may be the last one. Takes no memory.
pub fn wants<'e>(row: OpRow, operator: Row, is_last: bool, arg: Written<'e>) -> Wanted<'e>
    requires { IsRowOf row operator }
    ensures walk { meaning.with_unnamed row.closure operator row.args is_last (written_arg arg.entry)
        ≡ wanted_walk result (written_arg arg.entry) }
    ensures ports { ports_in result ≡ meaning.args_ports row.args 1 }
    ensures fits { FitsWanted operator result }
{
    match row.closure {
        ClosureUse::Never => plain(row.args),
        ClosureUse::May => Wanted::Alone(Alone::Closure),
        ClosureUse::Must => last_or_plain(is_last, Alone::Closure, row.args),
        ClosureUse::Total => last_or_plain(is_last, Alone::Total, row.args),
        ClosureUse::Labels => Wanted::Alone(Alone::Labels),
        ClosureUse::Name => Wanted::Alone(Alone::Word),
        ClosureUse::InPlace => in_place(operator, arg),
        ClosureUse::Refused => Wanted::Alone(Alone::Nothing),
    }
}

/// A channel or a value, as the row has it.
fn plain<'e>(args: Args) -> Wanted<'e>
    ensures { IsPlainOf args result }
{
    match args {
        Args::Channel => Wanted::Channel,
        Args::Channels => Wanted::Channel,
        Args::Value => Wanted::Start,
        Args::MaybeValue => Wanted::Start,
        Args::Values => Wanted::Start,
        Args::Nothing => Wanted::Alone(Alone::Nothing),
    }
}

/// A closure as the last argument, and before it what the row has.
fn last_or_plain<'e>(is_last: bool, last: Alone<'e>, args: Args) -> Wanted<'e>
    ensures { IsLastOrPlain is_last last.entry args result }
{
    if is_last {
        Wanted::Alone(last)
    } else {
        plain(args)
    }
}

/// `ifEmpty` and `filter`: a closure, or what the operator takes in its place.
fn in_place<'e>(operator: Row, arg: Written<'e>) -> Wanted<'e>
    ensures walk { meaning.in_place operator (written_arg arg.entry) ≡ wanted_walk result (written_arg arg.entry) }
    ensures ports { ports_in result ≡ 0 }
    ensures fits { is_labelled operator ≡ false → FitsWanted operator result }
{
    match operator {
        Row::IfEmpty => filling(arg),
        _ => filtering(arg),
    }
}

/// A closure that is applied to null before the run, or a value.
fn filling<'e>(arg: Written<'e>) -> Wanted<'e>
    ensures walk { meaning.filling (written_arg arg.entry).tree (written_arg arg.entry)
        ≡ wanted_walk result (written_arg arg.entry) }
    ensures ports { ports_in result ≡ 0 }
    ensures fits { (r : Row) → FitsWanted r result }
{
    match arg.closure() {
        Some(_) => Wanted::Alone(Alone::Filling),
        None => Wanted::Start,
    }
}

/// A closure, a pattern or a value.
fn filtering<'e>(arg: Written<'e>) -> Wanted<'e>
    ensures walk { meaning.filtering (written_arg arg.entry).tree (written_arg arg.entry)
        ≡ wanted_walk result (written_arg arg.entry) }
    ensures ports { ports_in result ≡ 0 }
    ensures fits { (r : Row) → is_labelled r ≡ false → FitsWanted r result }
{
    match arg.closure() {
        Some(_) => Wanted::Alone(Alone::Closure),
        None => pattern_or_value(arg),
    }
}

/// A pattern or a value.
fn pattern_or_value<'e>(arg: Written<'e>) -> Wanted<'e>
    ensures walk { is_closure (written_arg arg.entry).tree ≡ false
        → meaning.filtering (written_arg arg.entry).tree (written_arg arg.entry)
        ≡ wanted_walk result (written_arg arg.entry) }
    ensures ports { ports_in result ≡ 0 }
    ensures fits { (r : Row) → FitsWanted r result }
{
    match pattern_in(arg) {
        Some((place, text)) => Wanted::Alone(Alone::Pattern(place, text)),
        None => Wanted::Literal,
    }
}
