// Children that name a tile beyond the last, which is known only once all tiles are read.
ghost use Rattle.std.specs.Prelude.{◌≡◌, ◌+◌, ◌^◌, ◌<◌, map, length, nat_le, position};
ghost use Rattle.std.specs.List.{flat_map};
ghost use Rattle.jobs.specs.Refusals.{first_beyond};
ghost use Rattle.jobs.specs.Rows.{tile_of};
ghost use Rattle.jobs.specs.Spelled.{tile_lines};

use crate::rows::{Placed, Tile};

// The place of the first such child among the children.
fn beyond_child(children: &[Placed], tiles: usize) -> Option<usize>
    ensures { result ≡ position (λ p. nat_le tiles p.tile) children.now }
{
    children.iter().position(|child| child.tile >= tiles)
}

// The line of the first such child of all tiles, where the lines of the tiles are numbered from first.
pub(crate) fn beyond_tile(tiles: &[Tile], first: usize) -> Option<usize>
    requires { first + length (flat_map tile_lines (map tile_of tiles.now)) < 2 ^ 64 }
    ensures { result ≡ first_beyond (length tiles.now) first (flat_map tile_lines (map tile_of tiles.now)) }
{
    let mut line = first;
    // Tried as one chain over all lines: what `position` finds in a `flat_map` of chains was not proved.
    for tile in tiles {
        let children = tile.children.as_slice();
        if let Some(child) = beyond_child(children, tiles.len()) {
            return Some(line + 1 + child);
        }
        line += 1 + children.len();
    }
    None
}
