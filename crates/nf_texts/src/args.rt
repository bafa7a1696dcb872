//! Checks the receiver and the arguments of a call, and takes out what they hold.
//!
//! A receiver of another kind is the fault `NoMethod`, another number of arguments `Arity`, and an argument of another kind
//! `WrongKind`.

ghost use Rattle.std.specs.Prelude.{◌≡◌, ◌∷◌, [], Ok, Err, MatchResult};
ghost use Rattle.nf_value.specs.View.{plain_of};
ghost use Rattle.nf_value.specs.Plain.{plain_pairs_of};
ghost use Rattle.nf_texts.specs.Texts.{count_arg as count_arg_of, count_of as count_of_int, count_or_fault};
ghost use Rattle.nf_texts.specs.Args.{on_text as on_text_of, on_list as on_list_of, on_file as on_file_of, on_table as on_table_of, no_args as no_args_of, one_arg as one_arg_of, text_arg as text_arg_of, int_arg as int_arg_of, text_args as text_args_of, int_args as int_args_of, text_or, int_or};
ghost use Rattle.nf_value.specs.declared.fault.EvalKind.TheVariants.{WrongKind, NoMethod};

use nf_value::{EvalKind, FileRef, Pairs, Txt, Vals, Value};

/// The text that the receiver has to be.
pub fn on_text(recv: &Value) -> Result<&Txt, EvalKind>
    ensures { MatchResult result (λ t. on_text_of (plain_of recv.now) ≡ Ok t.now) (λ k. on_text_of (plain_of recv.now) ≡ Err k) }
{
    match recv {
        Value::Text(text) => Ok(text),
        _ => Err(EvalKind::NoMethod),
    }
}

/// The list that the receiver has to be.
pub fn on_list(recv: &Value) -> Result<&Vals, EvalKind>
    ensures { MatchResult result (λ l. on_list_of (plain_of recv.now) ≡ Ok l.now) (λ k. on_list_of (plain_of recv.now) ≡ Err k) }
{
    match recv {
        Value::List(list) => Ok(list),
        _ => Err(EvalKind::NoMethod),
    }
}

/// The file that the receiver has to be.
pub fn on_file(recv: &Value) -> Result<&FileRef, EvalKind>
    ensures { MatchResult result (λ f. on_file_of (plain_of recv.now) ≡ Ok f.now.name) (λ k. on_file_of (plain_of recv.now) ≡ Err k) }
{
    match recv {
        Value::File(file) => Ok(file.file()),
        _ => Err(EvalKind::NoMethod),
    }
}

/// The map that the receiver has to be.
pub fn on_map(recv: &Value) -> Result<&Pairs, EvalKind>
    ensures { MatchResult result (λ p. on_table_of (plain_of recv.now) ≡ Ok (plain_pairs_of p.now)) (λ k. on_table_of (plain_of recv.now) ≡ Err k) }
{
    match recv {
        Value::Map(pairs) => Ok(pairs),
        _ => Err(EvalKind::NoMethod),
    }
}

/// Checks that there is no argument.
pub fn no_args(args: &Vals) -> Result<(), EvalKind>
    ensures { result ≡ no_args_of args.now }
{
    match args.items() {
        [] => Ok(()),
        _ => Err(EvalKind::Arity),
    }
}

/// The only argument.
pub fn one_arg(args: &Vals) -> Result<&Value, EvalKind>
    ensures { MatchResult result (λ v. one_arg_of args.now ≡ Ok (plain_of v.now)) (λ k. one_arg_of args.now ≡ Err k) }
{
    match args.items() {
        [only] => Ok(only),
        _ => Err(EvalKind::Arity),
    }
}

/// The text that an argument has to be.
pub fn as_text(value: &Value) -> Result<&Txt, EvalKind>
    ensures { MatchResult result (λ t. text_or WrongKind (plain_of value.now) ≡ Ok t.now) (λ k. text_or WrongKind (plain_of value.now) ≡ Err k) }
{
    match value {
        Value::Text(text) => Ok(text),
        _ => Err(EvalKind::WrongKind),
    }
}

/// The number that an argument has to be.
pub fn as_int(value: &Value) -> Result<i64, EvalKind>
    ensures { result ≡ int_or WrongKind (plain_of value.now) }
{
    match value {
        Value::Int(number) => Ok(*number),
        _ => Err(EvalKind::WrongKind),
    }
}

/// The only argument, which has to be a text.
pub fn text_arg(args: &Vals) -> Result<&Txt, EvalKind>
    ensures { MatchResult result (λ t. text_arg_of args.now ≡ Ok t.now) (λ k. text_arg_of args.now ≡ Err k) }
{
    as_text(one_arg(args)?)
}

/// The only argument, which has to be a number.
pub fn int_arg(args: &Vals) -> Result<i64, EvalKind>
    ensures { result ≡ int_arg_of args.now }
{
    as_int(one_arg(args)?)
}

/// The two arguments, which have to be numbers.
pub fn int_args(args: &Vals) -> Result<(i64, i64), EvalKind>
    ensures { result ≡ int_args_of args.now }
{
    match args.items() {
        [first, second] => int_pair(first, second),
        _ => Err(EvalKind::Arity),
    }
}

fn int_pair(first: &Value, second: &Value) -> Result<(i64, i64), EvalKind>
    ensures { result ≡ int_args_of (plain_of first.now ∷ plain_of second.now ∷ []) }
{
    let first = as_int(first)?;
    let second = as_int(second)?;
    Ok((first, second))
}

/// The number that the receiver has to be.
pub fn on_int(recv: &Value) -> Result<i64, EvalKind>
    ensures { result ≡ int_or NoMethod (plain_of recv.now) }
{
    match recv {
        Value::Int(number) => Ok(*number),
        _ => Err(EvalKind::NoMethod),
    }
}

/// The only argument, which has to be a number that isn't negative.
pub fn count_arg(args: &Vals) -> Result<u64, EvalKind>
    ensures { result ≡ count_arg_of args.now }
{
    count_of(int_arg(args)?)
}

/// The count that a number is; a negative one is the fault `WrongKind`.
pub fn count_of(number: i64) -> Result<u64, EvalKind>
    ensures { result ≡ count_of_int number }
{
    match u64::try_from(number) {
        Ok(count) => Ok(count),
        Err(_) => Err(EvalKind::WrongKind),
    }
}

/// The count that an argument has to be: a number that isn't negative.
pub fn as_count(value: &Value) -> Result<u64, EvalKind>
    ensures { result ≡ count_or_fault (plain_of value.now) }
{
    count_of(as_int(value)?)
}

/// The two arguments, which have to be texts.
pub fn text_args(args: &Vals) -> Result<(&Txt, &Txt), EvalKind>
    ensures { MatchResult result (λ r. text_args_of args.now ≡ Ok (r.0.now, r.1.now)) (λ k. text_args_of args.now ≡ Err k) }
{
    match args.items() {
        [first, second] => text_pair(first, second),
        _ => Err(EvalKind::Arity),
    }
}

fn text_pair<'a>(first: &'a Value, second: &'a Value) -> Result<(&'a Txt, &'a Txt), EvalKind>
    ensures { MatchResult result (λ r. text_args_of (plain_of first.now ∷ plain_of second.now ∷ []) ≡ Ok (r.0.now, r.1.now)) (λ k. text_args_of (plain_of first.now ∷ plain_of second.now ∷ []) ≡ Err k) }
{
    let first = as_text(first)?;
    let second = as_text(second)?;
    Ok((first, second))
}
