//! Laws of the code of values, each a contract over the definitions alone.

ghost use Rattle.std.specs.Prelude.{◌≡◌, ◌<◌, ◌≤◌, ◌^◌, ◌++◌, ℕ, List, length, Ok};
ghost use Rattle.nf_value.specs.Plain.{Plain};
ghost use Rattle.nf_value.specs.Code.{code};
ghost use Rattle.nf_value.specs.Depth.{depth_of};
ghost use Rattle.std.specs.declared.result.Result.{Result};
ghost use Rattle.nf_value.specs.declared.value.Value.{Value};
ghost use Rattle.nf_codec.specs.declared.fault.CodeFault.{CodeFault};
ghost use Rattle.nf_codec.specs.Reading.{read, Reads, IsGivenBack};
ghost use Rattle.nf_codec.specs.Whole.{IsWhole};

/// What is written reads back: bytes that begin with a value's code are read as that value, and the bytes after it are left. The
/// depth `d` that is allowed must be at least the value's.
#[tactic(auto, using(crate::proofs::RoundTrip::back))]
pub fn codes_read_back()
    ensures { (v : Plain) → (d : ℕ) → (rest : List ℕ) → IsWhole v → depth_of v ≤ d → read d (code v ++ rest) ≡ Ok (v, rest) }
{}

/// No code is the front of another value's code, so each code is of one value.
#[tactic(auto, using(crate::proofs::RoundTrip::one_code))]
pub fn codes_differ()
    ensures { (v : Plain) → (w : Plain) → (r : List ℕ) → (s : List ℕ) → IsWhole v → IsWhole w → code v ++ r ≡ code w ++ s → (v ≡ w) × (r ≡ s) }
{}

/// On bytes that begin with the code of a whole value of depth at most 64, `decode` gives that value and the length of its code, or
/// `Mem`. (`encode` ensures that the value which it writes is whole.)
#[tactic(auto, using(crate::proofs::RoundTrip::given_back))]
pub fn decode_gives_back()
    ensures { (v : Plain) → (rest : List ℕ) → (answer : Result (Value × ℕ) CodeFault) → IsWhole v → depth_of v ≤ 64 → Reads (code v ++ rest) (read 64 (code v ++ rest)) answer → IsGivenBack v answer }
{}

/// Only codes are read: the bytes begin with the code of the value that was read, the bytes after that code are left, and the value is
/// whole and no deeper than `d`. (Memory holds fewer than 2^64 bytes.)
pub fn only_codes_are_read()
    ensures { (d : ℕ) → (bs : List ℕ) → (v : Plain) → (rest : List ℕ) → length bs < 2 ^ 64 → read d bs ≡ Ok (v, rest) → (bs ≡ code v ++ rest) × IsWhole v × (depth_of v ≤ d) }
{}
