//! `params_over`: of parameters from several places, which win.

ghost use Rattle.std.specs.Prelude.{◌≡◌, ℕ, List, IfOk};
ghost use Rattle.nf_pairs.specs.Pairs.{put_all, value_at, first_of};

use nf_pairs::merged;
use nf_value::{Mem, Pairs};

/// The parameters of a run: those of the command line win over those of the parameter file, and these over those of the script (Nextflow
/// documentation, "Command line", `-params-file`).
///
/// # Errors
///
/// `Mem` if there is no memory for them.
pub fn params_over(script: Pairs, file: Pairs, words: Pairs) -> Result<Pairs, Mem>
    ensures pairs { IfOk result (λ ps. ps ≡ put_all words (put_all file script)) }
    ensures wins { IfOk result (λ ps. (name : List ℕ) → value_at name ps ≡ first_of (value_at name words) (first_of (value_at name file) (value_at name script))) }
{
    let file = merged(script, file)?;
    merged(file, words)
}
