ghost use Rattle.exact.specs.Sizes.{SizeLaws};

use crate::ring::Ring;

// A ring whose operations enlarge the largest coefficient by at most fixed factors.
pub trait SmallRing: Ring {
    ghost small: { SizeLaws Self.Ring.exact };
}
