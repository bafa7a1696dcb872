//! `Place`: where a port stands.

/// Where a port stands: its node, and its place among the node's ports (own).
#[derive(Debug, Clone, Copy, PartialEq, Eq, Drop)]
pub struct Place {
    /// The node's place, from 0.
    pub node: u32,
    /// The port's place among the node's ports, from 0.
    pub port: u32,
}
