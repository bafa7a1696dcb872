//! The name of a job's folder.

ghost use Rattle.std.specs.Prelude.{◌≡◌};
ghost use Rattle.nf_job.specs.JobText.{work_path};

use nf_value::Digest;

/// Writes the name of a job's folder: the first two hexadecimal digits of its key, a slash and the other 62 (Nextflow's
/// documentation, "Cache and resume", on the task's work directory). Takes no memory.
pub fn work_name(key: &Digest, into: &mut [u8; 65])
    ensures { into.new ≡ work_path key.now.0 }
{
    let (first, rest) = into.split_at_mut(2);
    let (slash, others) = rest.split_at_mut(1);
    let _ = hex::encode_to_slice(&key.0[..1], first);
    slash.copy_from_slice(b"/");
    let _ = hex::encode_to_slice(&key.0[1..], others);
}
