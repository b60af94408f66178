// Where cursors stand.
use crate::names::Name;
use calls::cursor::Cursor;
use std::fmt;
use std::fmt::Display;

// The name of the node that a cursor stands at, or that nothing is left.
#[derive(Clone, Copy)]
pub struct Standing(pub Option<Cursor>);

impl Display for Standing {
    fn fmt<W: fmt::Write>(&self, f: &mut fmt::Formatter<W>) -> fmt::Result {
        match self.0 {
            Some(cursor) => Name(&cursor.node).fmt(f),
            None => f.write_str("nothing is left"),
        }
    }
}
