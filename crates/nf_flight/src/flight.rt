//! `Flight`: what a run keeps of a take in flight.

/// What a run keeps of a take in flight (own).
#[derive(Debug, Clone, Copy, PartialEq, Eq, Drop)]
pub struct Flight {
    /// The node's place.
    pub node: u32,
    /// The attempt, from 1.
    pub attempt: u32,
    /// Whether the attempt is started.
    pub is_started: bool,
}
