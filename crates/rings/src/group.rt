ghost use Rattle.std.specs.Prelude.{◌≡◌};
ghost use Rattle.exact.specs.Groups.{AbelianGroup, AbelianLaws};

// Values that add up in a commutative group. Nothing refuses.
pub trait Group: Copy {
    ghost group: { AbelianGroup };

    // what a value is worth in the group
    ghost worth: { Self → group.Val };

    fn zero() -> Self
        ensures { worth result ≡ group.zero };

    fn sum(self, other: Self) -> Self
        ensures { worth result ≡ group.sum (worth self) (worth other) };

    fn opposite(self) -> Self
        ensures { worth result ≡ group.opposite (worth self) };

    ghost lawful: { AbelianLaws group };
}
