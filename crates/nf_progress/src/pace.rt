//! How often the line is drawn.

ghost use Rattle.std.specs.Prelude.{◌-◌, ◌/◌, ◌≤◌, ◌↔◌, IsTrue, MatchOption};
ghost use Rattle.std.specs.Time.{instant_nanos};

use std::time::Instant;

/// How many milliseconds lie between two lines.
const PAUSE: u128 = 100;

/// Whether a line is to be drawn now: none was drawn before, or it was a tenth of a second ago (own).
pub fn is_due(drawn: Option<Instant>, now: Instant) -> bool
    ensures { IsTrue result ↔ MatchOption drawn (Unit {0}) (λ d. 100 ≤ (instant_nanos now - instant_nanos d) / 1000000) }
{
    match drawn {
        None => true,
        Some(drawn) => now.saturating_duration_since(drawn).as_millis() >= PAUSE,
    }
}
