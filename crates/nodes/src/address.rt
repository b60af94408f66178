// Addresses of nodes.
ghost use Rattle.std.specs.Prelude.{◌≤◌};
ghost use Rattle.jobs.specs.Limits.{most_depth};

// The child numbers of an address: one for each level below the seed.
pub const PATH_LENGTH: usize = 12;

// A seed tile's number, and the child numbers from it down to a level. What the path holds beyond the level counts for nothing.
// `==` compares the whole path all the same: two addresses that differ only there are told apart, which does no harm.
// An array with its level beside, and no `Vec`: an address is copied and compared by value, and needs no heap.
#[derive(Debug, Clone, Copy, PartialEq, Eq)]
pub struct Address {
    pub seed: u16,
    pub level: u8,
    pub path: [u8; PATH_LENGTH],
    ghost short: { level ≤ most_depth },
}
