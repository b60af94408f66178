// The rings that a job may name.
ghost use Rattle.std.specs.Prelude.{◌≡◌, Some};
ghost use Rattle.jobs.specs.Rings.{order_of, rank_of, name_of};

use std::fmt;

// Z[i], where a turn has four parts, and Z[ζ10], where it has ten.
#[derive(Debug, Clone, Copy, PartialEq, Eq)]
pub enum NamedRing {
    Gaussian,
    Tenfold,
}

impl NamedRing {
    // The order n: how many parts a turn has.
    pub fn order(self) -> u32
        ensures { result ≡ order_of self }
    {
        match self {
            NamedRing::Gaussian => 4,
            NamedRing::Tenfold => 10,
        }
    }

    // The rank d: how many coefficients an element has.
    pub fn rank(self) -> usize
        ensures { result ≡ rank_of self }
    {
        match self {
            NamedRing::Gaussian => 2,
            NamedRing::Tenfold => 4,
        }
    }
}

impl fmt::Display for NamedRing {
    ghost output = { λ r. Some (name_of r) };

    fn fmt<W: fmt::Write>(&self, f: &mut fmt::Formatter<W>) -> fmt::Result {
        match self {
            NamedRing::Gaussian => write!(f, "Z[i]"),
            NamedRing::Tenfold => write!(f, "Z[ζ10]"),
        }
    }
}
