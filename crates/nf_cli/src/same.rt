//! Whether two lists of paths are the same.

ghost use Rattle.std.specs.Prelude.{◌≡◌, IsTrue, map};
ghost use Rattle.nf_plan.specs.Plans.{want_of};

use nf_plan::Want;

/// Whether two scripts' sources read the same paths. Takes no memory.
pub(crate) fn are_same(wants: &[Want], others: &[Want]) -> bool
    ensures { IsTrue result → map want_of wants.now ≡ map want_of others.now }
{
    if wants.len() != others.len() {
        return false;
    }
    for (at, want) in wants.iter().enumerate() {
        if !is_same(want, &others[at]) {
            return false;
        }
    }
    true
}

fn is_same(want: &Want, other: &Want) -> bool
    ensures { IsTrue result → want_of want.now ≡ want_of other.now }
{
    want.path.as_str() == other.path.as_str()
        && want.must == other.must
        && want.pairs == other.pairs
}
