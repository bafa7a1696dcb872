//! `Reading`: what the names of an expression may stand for.

/// What the names of an expression may stand for (own).
#[derive(Debug, Clone, Copy, PartialEq, Eq)]
pub enum Reading {
    /// It is evaluated before the run: no channel, and no file.
    BeforeRun,
    /// It is a closure that is applied to items, or stands in a process: no channel.
    InRun,
    /// It is only read: anything.
    Unread,
}
