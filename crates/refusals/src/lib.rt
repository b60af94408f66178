// How every layer tells of a refusal: a number, a place and the layer it arose in.
#![tactic(auto)]

ghost use Rattle.std.specs.Prelude.{◌≡◌};
ghost use Rattle.refusals.specs.Refusal.{Refusal};

// The layer that a refusal arose in.
#[derive(Debug, Clone, Copy, PartialEq, Eq)]
pub enum Layer {
    Text,
    Book,
    Ring,
    File,
    Sheet,
}

// A fault of some layer. What it refuses with is fixed by one definition for each fault type.
pub trait Fault {
    ghost refusal: { Self → Refusal };

    // None for what is no refusal of the input, as want of memory. A number, by a rule of the project: users know refusals by theirs.
    fn number(&self) -> Option<u8>
        ensures { result ≡ (refusal self.now).number };

    // A line, a label, a tile or an offset, by the number; 0 where the number has no place.
    fn place(&self) -> usize
        ensures { (refusal self.now).Places result };

    fn layer(&self) -> Layer
        ensures { result ≡ (refusal self.now).layer };
}
