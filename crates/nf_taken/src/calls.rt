//! Calls of operators, of what they took.

ghost use Rattle.std.specs.Prelude.{◌≡◌, ◌<◌, ◌^◌, ◌∷◌, IfOk, None, true, false};
ghost use Rattle.std.specs.Option.{option_map};
ghost use Rattle.nf_value.specs.View.{plain_of};
ghost use Rattle.nf_bodies.specs.Means.{AnswersAs};
ghost use Rattle.nf_meaning.specs.Taken as meaning;
ghost use Rattle.nf_plan.specs.Plans.{is_process};
ghost use Rattle.nf_tasks.specs.Memory.{Program};
ghost use Rattle.nf_taken.specs.Calls.{IsCallOf, IsOperatorOf, IsSetOf, Settles, TookBody, key_of, start_of};
ghost use Rattle.nf_taken.specs.Taken.{AreByLabels, FitsClosing, is_labelled};

use crate::taken::{Closing, Taken};
use nf_bag::{OpOpts, Row};
use nf_bodies::NodeBody;
use nf_bodies::laws::{answers, closures};
use nf_eval::Closure;
use nf_graph::{Port, Ports};
use nf_meaning::LowerFault;
use nf_opargs::{no_options, takes};
use nf_optable::{OpRow, Operator};
use nf_pattern::WholeRe;
use nf_plan::OperatorCall;
use nf_value::{Mem, Place, Txt, Value};
use std::alloc::Global;

/// The operator that a row is of, for a call with so many arguments without a name (Nextflow reference documentation,
/// "Operators"). The operator's name stands at `place`. Takes no memory.
///
/// # Errors
///
/// `WrongArity` at its name if it takes another number; `BadOption` there if its result is the order of arrival.
pub fn operator_of(place: Place, row: OpRow, count: usize) -> Result<Row, LowerFault>
    ensures { IsOperatorOf place row count result }
{
    if !takes(row, count) {
        return Err(LowerFault::WrongArity { place });
    }
    match row.operator {
        Operator::Bag(operator) => Ok(operator),
        Operator::Arrival(_) => Err(LowerFault::BadOption { place }),
    }
}

impl Taken {
    /// The call of an operator that took this, on the channel that the port reads; and its labels (Nextflow reference
    /// documentation, "Operators"). The operator's name stands at `place`.
    ///
    /// # Errors
    ///
    /// `Mem` for want of memory, and where there are 2^32 labels or more, which no graph has outputs for.
    pub fn into_call(
        self,
        alloc: Global,
        place: Place,
        operator: Row,
        first: Port,
    ) -> Result<(OperatorCall, Vec<Txt>), Mem>
        requires { FitsClosing operator self.closing }
        ensures { IfOk result (IsCallOf self place operator first) }
    {
        let Taken {
            ports,
            literal,
            pattern,
            start,
            closing,
            labels,
            word: _,
            opts,
        } = self;
        let outs = number_of(labels.len())?;
        let name = name_of(alloc, operator)?;
        let read = with_first(alloc, first, ports.as_slice())?;
        let body = body_of(operator, closing, pattern, literal);
        let call = OperatorCall {
            name,
            place,
            row: operator,
            opts: settled(operator, opts, start, outs),
            ports: read,
            body,
        };
        Ok((call, labels))
    }
}

/// The call of `set` on the channel that the port reads (Nextflow reference documentation, "Operators", "set").
///
/// # Errors
///
/// `Mem` for want of memory.
pub fn set_call(alloc: Global, place: Place, port: Port) -> Result<OperatorCall, Mem>
    ensures { IfOk result (IsSetOf place port) }
{
    answers();
    let name = name_of(alloc, Row::Set)?;
    let read = with_first(alloc, port, &[])?;
    Ok(OperatorCall {
        name,
        place,
        row: Row::Set,
        opts: no_options(),
        ports: read,
        body: NodeBody::Item,
    })
}

/// How many labels there are, as a graph numbers outputs.
fn number_of(count: usize) -> Result<u32, Mem>
    ensures same { IfOk result (λ n. n ≡ count) }
    ensures few { IfOk result (λ n. n < 2 ^ 32) }
{
    match u32::try_from(count) {
        Ok(number) => Ok(number),
        Err(_) => Err(Mem),
    }
}

/// The options that an operator goes by: `ifEmpty` has a value, and `combine` has no key but its first elements.
fn settled(operator: Row, opts: OpOpts, start: Option<Value>, outs: u32) -> OpOpts
    ensures { Settles operator opts start outs result }
{
    let OpOpts {
        by,
        remainder,
        sort,
        flat,
        start: _,
        total,
        outs: _,
    } = opts;
    OpOpts {
        by: key(operator, by),
        remainder,
        sort,
        flat,
        start: beginning(operator, start),
        total,
        outs,
    }
}

fn key(operator: Row, by: Option<u32>) -> Option<u32>
    ensures { result ≡ key_of operator by }
{
    match operator {
        Row::Combine => by.map(|_| 0),
        _ => by,
    }
}

fn beginning(operator: Row, start: Option<Value>) -> Option<Value>
    ensures { option_map plain_of result ≡ start_of operator (option_map plain_of start) }
{
    match operator {
        Row::IfEmpty => Some(start.unwrap_or(Value::Null)),
        _ => start,
    }
}

/// How items are answered: by the closure, or else by the pattern, or else by the value.
fn body_of(
    operator: Row,
    closing: Closing,
    pattern: Option<WholeRe>,
    literal: Option<Value>,
) -> NodeBody
    requires { FitsClosing operator closing }
    ensures body { is_process result ≡ false }
    ensures answers { (n : Program) (t : meaning.Taken) → TookBody n closing pattern literal t
        → AnswersAs n result operator t }
{
    closures();
    match closing {
        Closing::Whole(closure) => NodeBody::Applied(closure),
        Closing::ByLabels(stored) => labelled_body(operator, stored),
        Closing::Nothing => unclosed_body(pattern, literal),
    }
}

fn labelled_body(operator: Row, stored: Vec<Closure>) -> NodeBody
    requires { is_labelled operator ≡ true }
    ensures body { is_process result ≡ false }
    ensures answers { (n : Program) (t : meaning.Taken) → AreByLabels n stored.items t.closing
        → AnswersAs n result operator t }
{
    closures();
    match operator {
        Row::Branch => NodeBody::Branch(stored),
        _ => NodeBody::MultiMap(stored),
    }
}

fn unclosed_body(pattern: Option<WholeRe>, literal: Option<Value>) -> NodeBody
    ensures body { is_process result ≡ false }
    ensures answers { (n : Program) (r : Row) (t : meaning.Taken) → t.closing ≡ None → pattern ≡ t.pattern
        → option_map plain_of literal ≡ t.literal → AnswersAs n result r t }
{
    answers();
    match pattern {
        Some(pattern) => NodeBody::Pattern(pattern),
        None => match literal {
            Some(value) => NodeBody::Literal(value),
            None => NodeBody::Item,
        },
    }
}

fn name_of(alloc: Global, operator: Row) -> Result<Txt, Mem> {
    Ok(Txt::of(String::from_str(alloc, operator.name())?))
}

/// A port and those after it.
fn with_first(alloc: Global, first: Port, others: &[Port]) -> Result<Ports, Mem>
    ensures { IfOk result (λ ports. ports ≡ first ∷ others.now) }
{
    let mut ports = Vec::new(alloc);
    ports.push(first)?;
    ports.extend_from_slice(others)?;
    Ok(Ports::of(ports))
}
