//! The table of methods: for each, on which values and how it is called.

ghost use Rattle.std.specs.Prelude.{◌≡◌, IfOk};
ghost use Rattle.nf_builtins.specs.Call.{builtin_rows};
ghost use Rattle.nf_builtins.specs.Method.{method_name};
ghost use Rattle.nf_value.specs.View.{plain_of};
ghost use Rattle.nf_builtins.specs.Rows.{is_on, is_closure};

use crate::method::Method;
use nf_table::{Named, Table};
use nf_value::{Mem, Value};
use std::alloc::Global;

/// The values that have a method.
#[derive(Debug, Clone, Copy, PartialEq, Eq)]
pub enum On {
    /// On no value: a function of `Math`.
    Nothing,
    /// Numbers.
    Int,
    /// Texts.
    Text,
    /// Files.
    File,
    /// Lists.
    List,
    /// Maps.
    Map,
    /// Numbers and texts.
    IntOrText,
    /// Texts and lists.
    TextOrList,
    /// Texts, lists and maps.
    TextListOrMap,
    /// All values but null.
    AnyButNull,
}

/// How a method is called.
#[derive(Debug, Clone, Copy, PartialEq, Eq)]
pub enum Form {
    /// A call with plain arguments in parentheses.
    Call,
    /// A call with a closure. The evaluator performs it.
    Closure,
    /// A property, without parentheses.
    Property,
}

/// A row of the table of methods.
#[derive(Debug, Clone, Copy, PartialEq, Eq)]
pub struct Builtin {
    /// The method. The row has its name.
    pub method: Method,
    /// The values that have it.
    pub on: On,
    /// How it is called.
    pub form: Form,
}

impl Named for Builtin {
    ghost label = { λ b. method_name b.method };

    fn name(&self) -> &str {
        self.method.name()
    }
}

impl Builtin {
    /// Whether it takes a closure, so that the evaluator performs its calls.
    pub fn takes_closure(&self) -> bool
        ensures { result ≡ is_closure self.now.form }
    {
        matches!(self.form, Form::Closure)
    }

    /// Whether a value has it.
    pub fn is_on(&self, value: &Value) -> bool
        ensures { result ≡ is_on self.now.on (plain_of value.now) }
    {
        match self.on {
            On::Nothing => false,
            On::Int => matches!(value, Value::Int(_)),
            On::Text => matches!(value, Value::Text(_)),
            On::File => matches!(value, Value::File(_)),
            On::List => matches!(value, Value::List(_)),
            On::Map => matches!(value, Value::Map(_)),
            On::IntOrText => matches!(value, Value::Int(_) | Value::Text(_)),
            On::TextOrList => matches!(value, Value::Text(_) | Value::List(_)),
            On::TextListOrMap => matches!(value, Value::Text(_) | Value::List(_) | Value::Map(_)),
            On::AnyButNull => !matches!(value, Value::Null),
        }
    }
}

/// The rows, in the order of their names. This is the only table of methods.
pub(crate) const ROWS: &[Builtin] = &[
    Builtin {
        method: Method::MathAbs,
        on: On::Nothing,
        form: Form::Call,
    },
    Builtin {
        method: Method::MathMax,
        on: On::Nothing,
        form: Form::Call,
    },
    Builtin {
        method: Method::MathMin,
        on: On::Nothing,
        form: Form::Call,
    },
    Builtin {
        method: Method::Any,
        on: On::List,
        form: Form::Closure,
    },
    Builtin {
        method: Method::BaseName,
        on: On::File,
        form: Form::Property,
    },
    Builtin {
        method: Method::Collect,
        on: On::List,
        form: Form::Closure,
    },
    Builtin {
        method: Method::Contains,
        on: On::TextOrList,
        form: Form::Call,
    },
    Builtin {
        method: Method::ContainsKey,
        on: On::Map,
        form: Form::Call,
    },
    Builtin {
        method: Method::Drop,
        on: On::TextOrList,
        form: Form::Call,
    },
    Builtin {
        method: Method::EndsWith,
        on: On::Text,
        form: Form::Call,
    },
    Builtin {
        method: Method::Every,
        on: On::List,
        form: Form::Closure,
    },
    Builtin {
        method: Method::Extension,
        on: On::File,
        form: Form::Property,
    },
    Builtin {
        method: Method::Find,
        on: On::List,
        form: Form::Closure,
    },
    Builtin {
        method: Method::FindAll,
        on: On::List,
        form: Form::Closure,
    },
    Builtin {
        method: Method::First,
        on: On::List,
        form: Form::Call,
    },
    Builtin {
        method: Method::Flatten,
        on: On::List,
        form: Form::Call,
    },
    Builtin {
        method: Method::GetBaseName,
        on: On::File,
        form: Form::Call,
    },
    Builtin {
        method: Method::GetExtension,
        on: On::File,
        form: Form::Call,
    },
    Builtin {
        method: Method::GetName,
        on: On::File,
        form: Form::Call,
    },
    Builtin {
        method: Method::GetSimpleName,
        on: On::File,
        form: Form::Call,
    },
    Builtin {
        method: Method::IndexOf,
        on: On::TextOrList,
        form: Form::Call,
    },
    Builtin {
        method: Method::Intdiv,
        on: On::Int,
        form: Form::Call,
    },
    Builtin {
        method: Method::IsEmpty,
        on: On::TextListOrMap,
        form: Form::Call,
    },
    Builtin {
        method: Method::IsInteger,
        on: On::Text,
        form: Form::Call,
    },
    Builtin {
        method: Method::Join,
        on: On::List,
        form: Form::Call,
    },
    Builtin {
        method: Method::KeySet,
        on: On::Map,
        form: Form::Call,
    },
    Builtin {
        method: Method::Last,
        on: On::List,
        form: Form::Call,
    },
    Builtin {
        method: Method::Length,
        on: On::Text,
        form: Form::Call,
    },
    Builtin {
        method: Method::Max,
        on: On::List,
        form: Form::Call,
    },
    Builtin {
        method: Method::Min,
        on: On::List,
        form: Form::Call,
    },
    Builtin {
        method: Method::Name,
        on: On::File,
        form: Form::Property,
    },
    Builtin {
        method: Method::Replace,
        on: On::Text,
        form: Form::Call,
    },
    Builtin {
        method: Method::Reverse,
        on: On::TextOrList,
        form: Form::Call,
    },
    Builtin {
        method: Method::SimpleName,
        on: On::File,
        form: Form::Property,
    },
    Builtin {
        method: Method::Size,
        on: On::TextListOrMap,
        form: Form::Call,
    },
    Builtin {
        method: Method::Sort,
        on: On::List,
        form: Form::Call,
    },
    Builtin {
        method: Method::StartsWith,
        on: On::Text,
        form: Form::Call,
    },
    Builtin {
        method: Method::Substring,
        on: On::Text,
        form: Form::Call,
    },
    Builtin {
        method: Method::Sum,
        on: On::List,
        form: Form::Call,
    },
    Builtin {
        method: Method::Take,
        on: On::TextOrList,
        form: Form::Call,
    },
    Builtin {
        method: Method::ToInteger,
        on: On::IntOrText,
        form: Form::Call,
    },
    Builtin {
        method: Method::ToLowerCase,
        on: On::Text,
        form: Form::Call,
    },
    Builtin {
        method: Method::ToText,
        on: On::AnyButNull,
        form: Form::Call,
    },
    Builtin {
        method: Method::ToUpperCase,
        on: On::Text,
        form: Form::Call,
    },
    Builtin {
        method: Method::Tokenize,
        on: On::Text,
        form: Form::Call,
    },
    Builtin {
        method: Method::Trim,
        on: On::Text,
        form: Form::Call,
    },
    Builtin {
        method: Method::Unique,
        on: On::List,
        form: Form::Call,
    },
    Builtin {
        method: Method::Values,
        on: On::Map,
        form: Form::Call,
    },
];

/// The table of all rows, in the order of their names.
///
/// # Errors
///
/// `Mem` where there is no memory for it.
pub fn builtins(alloc: Global) -> Result<Table<Builtin, 48>, Mem>
    ensures { IfOk result (λ t. t ≡ builtin_rows) }
{
    let rows = Vec::from_slice(alloc, ROWS)?;
    Ok(Table::new(rows))
}
