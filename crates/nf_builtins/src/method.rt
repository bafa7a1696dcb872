//! The methods, and their names.

ghost use Rattle.std.specs.Prelude.{◌≡◌};
ghost use Rattle.nf_builtins.specs.Method.{method_name};

/// A method, or a function of `Math` (Nextflow reference, "Standard library: types"; which of them there are is this project's own choice).
#[derive(Debug, Clone, Copy, PartialEq, Eq)]
pub enum Method {
    /// `Math.abs`.
    MathAbs,
    /// `Math.max`.
    MathMax,
    /// `Math.min`.
    MathMin,
    /// `any`.
    Any,
    /// `baseName`.
    BaseName,
    /// `collect`.
    Collect,
    /// `contains`.
    Contains,
    /// `containsKey`.
    ContainsKey,
    /// `drop`.
    Drop,
    /// `endsWith`.
    EndsWith,
    /// `every`.
    Every,
    /// `extension`.
    Extension,
    /// `find`.
    Find,
    /// `findAll`.
    FindAll,
    /// `first`.
    First,
    /// `flatten`.
    Flatten,
    /// `getBaseName`.
    GetBaseName,
    /// `getExtension`.
    GetExtension,
    /// `getName`.
    GetName,
    /// `getSimpleName`.
    GetSimpleName,
    /// `indexOf`.
    IndexOf,
    /// `intdiv`.
    Intdiv,
    /// `isEmpty`.
    IsEmpty,
    /// `isInteger`.
    IsInteger,
    /// `join`.
    Join,
    /// `keySet`.
    KeySet,
    /// `last`.
    Last,
    /// `length`.
    Length,
    /// `max`.
    Max,
    /// `min`.
    Min,
    /// `name`.
    Name,
    /// `replace`.
    Replace,
    /// `reverse`.
    Reverse,
    /// `simpleName`.
    SimpleName,
    /// `size`.
    Size,
    /// `sort`.
    Sort,
    /// `startsWith`.
    StartsWith,
    /// `substring`.
    Substring,
    /// `sum`.
    Sum,
    /// `take`.
    Take,
    /// `toInteger`.
    ToInteger,
    /// `toLowerCase`.
    ToLowerCase,
    /// `toString`.
    ToText,
    /// `toUpperCase`.
    ToUpperCase,
    /// `tokenize`.
    Tokenize,
    /// `trim`.
    Trim,
    /// `unique`.
    Unique,
    /// `values`.
    Values,
}

impl Method {
    /// The name in a script.
    pub fn name(self) -> &'static str
        ensures { result.now ≡ method_name self }
    {
        match self {
            Method::MathAbs => "Math.abs",
            Method::MathMax => "Math.max",
            Method::MathMin => "Math.min",
            Method::Any => "any",
            Method::BaseName => "baseName",
            Method::Collect => "collect",
            Method::Contains => "contains",
            Method::ContainsKey => "containsKey",
            Method::Drop => "drop",
            Method::EndsWith => "endsWith",
            Method::Every => "every",
            Method::Extension => "extension",
            Method::Find => "find",
            Method::FindAll => "findAll",
            Method::First => "first",
            Method::Flatten => "flatten",
            Method::GetBaseName => "getBaseName",
            Method::GetExtension => "getExtension",
            Method::GetName => "getName",
            Method::GetSimpleName => "getSimpleName",
            Method::IndexOf => "indexOf",
            Method::Intdiv => "intdiv",
            Method::IsEmpty => "isEmpty",
            Method::IsInteger => "isInteger",
            Method::Join => "join",
            Method::KeySet => "keySet",
            Method::Last => "last",
            Method::Length => "length",
            Method::Max => "max",
            Method::Min => "min",
            Method::Name => "name",
            Method::Replace => "replace",
            Method::Reverse => "reverse",
            Method::SimpleName => "simpleName",
            Method::Size => "size",
            Method::Sort => "sort",
            Method::StartsWith => "startsWith",
            Method::Substring => "substring",
            Method::Sum => "sum",
            Method::Take => "take",
            Method::ToInteger => "toInteger",
            Method::ToLowerCase => "toLowerCase",
            Method::ToText => "toString",
            Method::ToUpperCase => "toUpperCase",
            Method::Tokenize => "tokenize",
            Method::Trim => "trim",
            Method::Unique => "unique",
            Method::Values => "values",
        }
    }
}
