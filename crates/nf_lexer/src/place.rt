//! The place after some bytes.

ghost use Rattle.std.specs.Prelude.{◌≡◌, ◌≤◌, ◌<◌, ◌+◌, ◌^◌, ℕ, List, [], ◌∷◌, ◌++◌, length};
ghost use Rattle.nf_lexer.specs.Place.{place_after as place_after_of, beyond};

use nf_value::Place;

/// The place after these bytes, which begin at this one.
pub fn past(place: Place, bytes: &[u8]) -> Place
    requires line { place.line + length bytes.now < 2 ^ 32 }
    requires col { place.col + length bytes.now < 2 ^ 32 }
    ensures { (front : List ℕ) → place ≡ place_after_of front → result ≡ place_after_of (front ++ bytes.now) }
{
    let mut here = place;
    for b in bytes {
        here = past_byte(here, *b);
    }
    here
}

/// The place after this byte.
fn past_byte(place: Place, b: u8) -> Place
    requires line { place.line + 1 < 2 ^ 32 }
    requires col { place.col + 1 < 2 ^ 32 }
    ensures line { result.line ≤ place.line + 1 }
    ensures col { result.col ≤ place.col + 1 }
    ensures after { (front : List ℕ) → place ≡ place_after_of front → result ≡ place_after_of (front ++ b ∷ []) }
{
    if b == b'\n' {
        Place {
            line: place.line + 1,
            col: 1,
        }
    } else {
        further(place, 1)
    }
}

/// The place so many bytes further on the same line.
pub fn further(place: Place, bytes: usize) -> Place
    requires { place.col + bytes < 2 ^ 32 }
    ensures { result ≡ beyond bytes place }
{
    Place {
        line: place.line,
        col: place.col + bytes as u32,
    }
}
