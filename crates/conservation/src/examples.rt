// The law applied to two books.
ghost use Rattle.conservation.specs.TwoBooks.{TwoBooksConserve};

// After any calls on a new sheet, of every job over the chair and over Penrose's book, the law holds for both meters.
pub fn chair_and_penrose_conserve()
    ensures { TwoBooksConserve }
{}
