// The cursor of a sheet.
ghost use Rattle.std.specs.Prelude.{◌≤◌};

use nodes::address::Address;

// The node to be worked on next, and the descents to it since the start or the last record.
#[derive(Debug, Clone, Copy)]
pub struct Cursor {
    pub node: Address,
    pub descents: u8,
    ghost within: { descents ≤ node.level },
}
