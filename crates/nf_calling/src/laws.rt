//! Laws of calls while a body is gone through, each a contract over the definitions alone.

ghost use Rattle.std.specs.Prelude.{◌≡◌, ℕ, List, false};
ghost use Rattle.nf_builtins.specs.Natives.{is_among};
ghost use Rattle.nf_plan.specs.Plans.{HasRoom};
ghost use Rattle.nf_lowering.specs.declared.state.Lowering.{Lowering};
ghost use Rattle.nf_lowering.specs.State.{calls_in};
ghost use Rattle.nf_walked.specs.Steps.{Goes};
ghost use Rattle.nf_calling.specs.Goes.{BeganAfter, GoesCalled, GoesInto, HasBegun};

use nf_follows::laws::rooms_last;
use nf_meaning::laws::paths_stay_apart;

/// A call that has begun and is counted stays so while its arguments are gone through. With its own node then, or once
/// the body of the workflow is gone through, the body of the call went on from where the call began.
pub fn calls_last()
    ensures begun { (n : List ℕ) → (old : Lowering) → (new : Lowering) → Goes old new → HasBegun n old → HasBegun n new }
    ensures path { (old : Lowering) → (new : Lowering) → Goes old new → new.path ≡ old.path }
    ensures room { (ports : ℕ) → (old : Lowering) → (new : Lowering) → Goes old new → HasRoom old.plan ports
        → HasRoom new.plan ports }
    ensures after { (n : List ℕ) → (ports : ℕ) → (first : Lowering) → (old : Lowering) → (new : Lowering)
        → BeganAfter n ports first old → Goes old new → BeganAfter n ports first new }
    ensures called { (n : List ℕ) → (ports : ℕ) → (first : Lowering) → (old : Lowering) → (new : Lowering)
        → BeganAfter n ports first old → Goes first old → GoesCalled n ports old new → Goes first new }
    ensures entered { (n : List ℕ) → (first : Lowering) → (old : Lowering) → (new : Lowering)
        → is_among n (calls_in first).called ≡ false → Goes first old → GoesInto n old new → Goes first new }
{
    paths_stay_apart();
    rooms_last();
}
