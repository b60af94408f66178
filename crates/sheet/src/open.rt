// Open and finished sheets: moved types that hold their placer. The piece list is the caller's, and is lent at each call.
ghost use Rattle.std.specs.Prelude.{◌≤◌};
ghost use Rattle.calls.specs.Limits.{most_pieces};

use crate::fault::SheetFault;
use calls::cursor::Cursor;
use placer::placer::Placer;

// A sheet in progress: where its cursor stands, None when nothing is left, and how many records the list has.
// Neither Drop nor Copy: a sheet is finished, or given up by `into_placer`.
pub struct Open<P: Placer> {
    pub(crate) placer: P,
    pub(crate) cursor: Option<Cursor>,
    pub(crate) count: usize,
    ghost counted: { count ≤ most_pieces },
}

// A sheet of which nothing is left to lay.
pub struct Finished<P: Placer> {
    pub(crate) placer: P,
    pub(crate) count: usize,
    ghost counted: { count ≤ most_pieces },
}

// A placer with which no sheet could be started, handed back with the reason.
pub struct Unstarted<P: Placer> {
    pub placer: P,
    pub fault: SheetFault<P::R>,
}

// A sheet that could not be finished, handed back with the reason.
pub struct Unfinished<P: Placer> {
    pub sheet: Open<P>,
    pub fault: SheetFault<P::R>,
}
