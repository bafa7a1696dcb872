//! How a call of the program ends: its end, the status and the error line of that, and what it writes.
#![tactic(auto)]

mod causes;
mod counts;
mod end;
pub mod laws;
mod lines;
mod nf_end;
mod stops;
mod writes;

pub use counts::summary;
pub use end::{End, ItemCause};
pub use lines::error_line;
pub use nf_end::NfEnd;
pub use stops::end_of_stop;
pub use writes::{Output, write};
