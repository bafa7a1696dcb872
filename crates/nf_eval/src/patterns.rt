//! Built patterns.

ghost use Rattle.std.specs.Prelude.{◌≡◌};

use nf_pattern::WholeRe;
use nf_value::Txt;

/// A built pattern, with the text that it was built from.
#[derive(Drop)]
pub(crate) struct Pattern {
    pub(crate) text: Txt,
    pub(crate) re: WholeRe,
    ghost same: { text ≡ re },
}
