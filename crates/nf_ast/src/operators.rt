//! The operators of expressions.

/// An operator between two operands (Nextflow reference documentation, "Syntax", "Binary expressions").
#[derive(Debug, Clone, Copy, PartialEq, Eq)]
pub enum InfixOperator {
    /// `||`
    Or,
    /// `&&`
    And,
    /// `|`
    Pipe,
    /// `==`
    Same,
    /// `!=`
    Differs,
    /// `==~`
    Matches,
    /// `<`
    Less,
    /// `<=`
    AtMost,
    /// `>`
    Greater,
    /// `>=`
    AtLeast,
    /// `in`
    In,
    /// `..`
    Range,
    /// `+`
    Plus,
    /// `-`
    Minus,
    /// `*`
    Times,
    /// `%`
    Remainder,
}

/// An operator before an operand (Nextflow reference documentation, "Syntax", "Unary expressions").
#[derive(Debug, Clone, Copy, PartialEq, Eq)]
pub enum PrefixOperator {
    /// `!`
    Not,
    /// `-`
    Minus,
}

/// An operator of a conditional expression (Nextflow reference documentation, "Syntax", "Ternary expression").
#[derive(Debug, Clone, Copy, PartialEq, Eq)]
pub enum BranchOperator {
    /// `?`: before what a true condition gives.
    Then,
    /// `:`: before what a false condition gives.
    Else,
    /// `?:`: before what is given where the operand on the left isn't true.
    Elvis,
}
