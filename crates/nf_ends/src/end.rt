//! `End`: how a call ended, and its exit status.

ghost use Rattle.std.specs.Prelude.{◌≡◌};
ghost use Rattle.nf_ends.specs.Ends.{status_of};

use nf_bag::OpFault;
use nf_command::UsageFault;
use nf_job::TaskFault;
use nf_kinds::Broken;
use nf_lexer::LexFault;
use nf_meaning::LowerFault;
use nf_parser::ParseFault;
use nf_publish::Clash;
use nf_value::{Digest, EvalFault, Place, Txt, Vals, Value};

/// How a call ended (own).
///
/// Want of memory is `Mem` alone: it stands inside no other end.
#[derive(Drop)]
pub enum End {
    /// All went well, and the output was written whole.
    Ok,
    /// A task ended the run: by its report, or since it has no job.
    TaskFailed {
        /// The path of the process's call, as `FLOW:PROC`.
        process: Txt,
        /// The task's inputs.
        inputs: Vals,
        /// How many tasks with equal inputs were taken before it, from 0.
        n: u32,
        /// What is wrong with it.
        fault: TaskFault,
    },
    /// An operator ended the run: its closure fails on an item, or it fails itself.
    ItemFault {
        /// Where the part of the closure stands that fails, or the operator's name.
        place: Place,
        /// What is wrong.
        fault: ItemCause,
    },
    /// Two files with different contents were to be published at one path.
    PublishClash(Clash),
    /// The items that were delivered in the run cost more than 67,108,864.
    Charge {
        /// What they cost.
        sum: u64,
    },
    /// The command line is wrong.
    Usage(UsageFault),
    /// The script's file isn't there.
    NoScript,
    /// A file that is needed isn't there: a parameter file, that of a literal path in the script, or any for a pattern that must match.
    NoFile {
        /// The path or the pattern.
        path: Txt,
    },
    /// A source file has more than 1,099,511,627,775 bytes, or a parameter file more than 16,777,216.
    FileTooLong {
        /// Its path.
        path: Txt,
    },
    /// The script has no tokens: the rule that it breaks first.
    Lex(LexFault),
    /// The tokens spell no script.
    Parse(ParseFault),
    /// The script keeps the rules of order, and has no meaning all the same.
    Lower(LowerFault),
    /// The script breaks a rule of order, so that its result might depend on which task ends first: the first such place.
    Order(Broken),
    /// The parameter file gives no parameters.
    BadParams {
        /// Which value is refused (RFC 6901); empty for the file as a whole.
        pointer: Txt,
    },
    /// The host failed: a file couldn't be read or written.
    HostFault,
    /// A lane failed: a task couldn't be run.
    LaneFault,
    /// The keeper failed: records of tasks couldn't be read or written.
    KeeperFault,
    /// The sink failed: the output couldn't be written whole.
    SinkFault,
    /// A file that is to be published isn't whole in the file store.
    Damaged {
        /// The digest that is due.
        due: Digest,
        /// The digest of what was read; none if no file is there, or one that is too long.
        found: Option<Digest>,
    },
    /// Out of memory. Nothing was written to the sink.
    Mem,
}

/// Why an operator ended a run (own).
#[derive(Drop)]
pub enum ItemCause {
    /// Its closure fails on this item.
    Eval {
        /// The item.
        item: Value,
        /// What is wrong.
        fault: EvalFault,
    },
    /// It fails itself, on an item, a key or a total.
    Op(OpFault),
}

impl End {
    /// The exit status (own): 0 if all went well, 1 if the run failed, 2 for a wrong command line, 3 for a script or file that
    /// can't be run, 4 if something outside of the program failed, 5 if memory ran out. Takes no memory.
    pub fn status(&self) -> u8
        ensures { result ≡ status_of self.now }
    {
        match self {
            End::Ok => 0,
            End::TaskFailed { .. }
            | End::ItemFault { .. }
            | End::PublishClash(_)
            | End::Charge { .. } => 1,
            End::Usage(_) => 2,
            End::NoScript
            | End::NoFile { .. }
            | End::FileTooLong { .. }
            | End::Lex(_)
            | End::Parse(_)
            | End::Lower(_)
            | End::Order(_)
            | End::BadParams { .. } => 3,
            End::HostFault
            | End::LaneFault
            | End::KeeperFault
            | End::SinkFault
            | End::Damaged { .. } => 4,
            End::Mem => 5,
        }
    }
}
