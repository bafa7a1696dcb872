//! `Sizes`: how many sources and calls a script has so far.

ghost use Rattle.std.specs.Prelude.{◌≡◌, true, false, MatchOption};
ghost use Rattle.nf_meaning.specs.Sizes.{grown, is_within_limits};
ghost use Rattle.nf_plan.specs.Sizes.{HasGrown, sizes_of};

/// How many sources and calls a script has so far, and how many channels these read (own). Each is at most 65,536. A call is counted
/// before its arguments are, and becomes a node of the plan after them.
#[derive(Clone, Copy, Drop)]
pub struct Sizes {
    /// The sources, the calls of operators and of processes, and the values that are given as channels.
    pub nodes: usize,
    /// The channels that these calls read.
    pub ports: usize,
}

/// The most nodes that a plan may have, and the most ports (own).
pub const MOST: usize = 65536;

impl Sizes {
    /// With one more source or call, which reads so many channels; nothing exactly if there are then too many of either.
    pub(crate) fn grown(self, ports: usize) -> Option<Sizes>
        requires { is_within_limits (sizes_of self) ≡ true }
        ensures { MatchOption result (is_within_limits (grown ports (sizes_of self)) ≡ false) (HasGrown self ports) }
    {
        if self.nodes >= MOST {
            return None;
        }
        if ports > MOST - self.ports {
            return None;
        }
        Some(Sizes {
            nodes: self.nodes + 1,
            ports: self.ports + ports,
        })
    }
}
