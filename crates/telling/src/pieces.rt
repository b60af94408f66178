// Pieces, spelt as in a cutting list.
use edges::rows::Placed;
use rings::ring::Ring;
use std::fmt;
use std::fmt::Display;

// A laid piece: its tile, turn, mirror mark and the coefficients of its place.
#[derive(Clone, Copy)]
pub struct Piece<'a, R>(pub &'a Placed<R>);

impl<R: Ring> Display for Piece<'_, R> {
    fn fmt<W: fmt::Write>(&self, f: &mut fmt::Formatter<W>) -> fmt::Result {
        let tile = self.0.tile;
        let turn = self.0.turn % R::N;
        let mark = u8::from(self.0.mirrored);
        write!(f, "{tile} {turn} {mark}")?;
        for k in 0..R::D {
            let c = R::plain_coefficient(self.0.place.plain(), k);
            write!(f, " {c}")?;
        }
        Ok(())
    }
}
