//! The bands of operators that bind equally.

/// The operators that bind equally, from the loosest band on (Nextflow reference documentation, "Syntax", "Precedence"; the order is this
/// project's own).
#[derive(Debug, Clone, Copy, PartialEq, Eq)]
pub enum Band {
    /// `||`
    Or,
    /// `&&`
    And,
    /// `|`
    Pipe,
    /// `==`, `!=`, `==~`: one at most
    Same,
    /// `<`, `<=`, `>`, `>=`, `in`: one at most
    Compare,
    /// `..`: one at most
    Range,
    /// `+`, `-`
    Sum,
    /// `*`, `%`
    Term,
}
