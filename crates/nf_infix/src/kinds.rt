//! Takes a number or a text out of an operand. Another kind of value is the fault `WrongKind`.

ghost use Rattle.std.specs.Prelude.{◌≡◌, Ok, Err, MatchResult};
ghost use Rattle.nf_value.specs.View.{plain_of};
ghost use Rattle.nf_value.specs.declared.fault.EvalKind.TheVariants.{WrongKind};
ghost use Rattle.nf_texts.specs.Args.{int_or, text_or};

use nf_value::{EvalKind, Txt, Value};

/// The number that an operand has to be.
pub(crate) fn int_in(value: &Value) -> Result<i64, EvalKind>
    ensures { result ≡ int_or WrongKind (plain_of value.now) }
{
    match value {
        Value::Int(number) => Ok(*number),
        _ => Err(EvalKind::WrongKind),
    }
}

/// The text that an operand has to be.
pub(crate) fn text_in(value: &Value) -> Result<&Txt, EvalKind>
    ensures { MatchResult result (λ t. text_or WrongKind (plain_of value.now) ≡ Ok t.now) (λ k. text_or WrongKind (plain_of value.now) ≡ Err k) }
{
    match value {
        Value::Text(text) => Ok(text),
        _ => Err(EvalKind::WrongKind),
    }
}
