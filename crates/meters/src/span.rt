// An edge between two positions, with all that a reading may ask of it.
ghost use Rattle.std.specs.Prelude.{◌≡◌};

use edges::rows::Edge;

// An edge, its end, the direction from its end back to its start, and whether its label is arrowed.
#[derive(Debug, Clone, Copy, PartialEq)]
pub struct Span<R> {
    pub edge: Edge<R>,
    pub end: R,
    pub back: u32,
    pub arrowed: bool,
}

impl<R: Copy> Span<R> {
    // The same edge, seen from its other end.
    pub fn turned(&self) -> Span<R>
        ensures { result ≡ record { edge = record { label = self.now.edge.label; direction = self.now.back; start = self.now.end }; end = self.now.edge.start; back = self.now.edge.direction; arrowed = self.now.arrowed } }
    {
        let edge = Edge {
            label: self.edge.label,
            direction: self.back,
            start: self.end,
        };
        Span {
            edge,
            end: self.edge.start,
            back: self.edge.direction,
            arrowed: self.arrowed,
        }
    }
}
