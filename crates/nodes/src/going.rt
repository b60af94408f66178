// From an address to others.
ghost use Rattle.std.specs.Prelude.{◌≡◌, ◌+◌, MatchOption};
ghost use Rattle.chains.specs.Addresses.{seed_address, child_address};
ghost use Rattle.jobs.specs.Limits.{most_depth};
ghost use Rattle.nodes.specs.Views.{address_view};

use crate::address::{Address, PATH_LENGTH};

impl Address {
    // The address of a seed tile.
    pub fn of_seed(seed: u16) -> Address
        ensures { address_view result ≡ seed_address seed }
    {
        Address {
            seed,
            level: 0,
            path: [0; PATH_LENGTH],
        }
    }

    // The child numbers from the seed tile down.
    pub fn children(&self) -> &[u8]
        ensures { result.now ≡ (address_view self.now).path }
    {
        &self.path[..usize::from(self.level)]
    }

    // The parent's address and the child's number; None for a seed tile.
    pub fn parent(&self) -> Option<(Address, u8)>
        ensures { MatchOption result
            (self.now.level ≡ 0)
            (λ q. address_view self.now ≡ child_address (address_view q.0) q.1) }
    {
        let level = self.level.checked_sub(1)?;
        let mut path = self.path;
        let child = path[usize::from(level)];
        path[usize::from(level)] = 0;
        let parent = Address {
            seed: self.seed,
            level,
            path,
        };
        Some((parent, child))
    }

    // The address of the node's first child; None where the path has no room for it.
    pub fn first_child(&self) -> Option<Address>
        ensures { MatchOption result
            (self.now.level ≡ most_depth)
            (λ a. (a.level ≡ self.now.level + 1) × (address_view a ≡ child_address (address_view self.now) 0)) }
    {
        let level = usize::from(self.level);
        if level == PATH_LENGTH {
            return None;
        }
        let mut path = self.path;
        path[level] = 0;
        Some(Address {
            seed: self.seed,
            level: self.level + 1,
            path,
        })
    }
}
