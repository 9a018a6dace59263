// Whether the fields of a header, or the arguments of a new book, are in their ranges.
ghost use Rattle.std.specs.Prelude.{◌≤◌, length};
ghost use Rattle.rules.specs.Words.{Tests, ◌∈◌, NoBitFrom};
ghost use Rattle.rules.specs.Tiles.{tile_counts, PlanInRange};
ghost use Rattle.rules.specs.Topology.{NodesInRange};
ghost use Rattle.rules.specs.Records.{the_plan};
ghost use Rattle.rules.specs.Image.{header_length, FieldsInRange};
ghost use Rattle.image.specs.Header.{HeaderOf};

use crate::Book;
use rules::{Plan, Slot, Tile};

// Whether a tile plan can repeat after so many tiles.
fn is_tile_count(tiles: Tile) -> bool
    ensures { Tests result (tiles.0 ∈ tile_counts) }
{
    matches!(tiles.0, 1 | 2 | 4 | 5 | 10)
}

// Whether the kinds have no bit from the count of tiles up.
fn kinds_fit(tiles: Tile, kinds: u16) -> bool
    requires { tiles.0 ∈ tile_counts }
    ensures { Tests result (NoBitFrom tiles.0 kinds) }
{
    kinds >> tiles.0 == 0
}

// Whether each field of a tile plan is in its range.
pub fn plan_in_range(plan: Plan) -> bool
    ensures { Tests result (PlanInRange (the_plan plan)) }
{
    let s = plan.slots;
    if s < Slot(1) || Slot(32) < s || s < plan.down || s < plan.up {
        return false;
    }
    is_tile_count(plan.tiles) && kinds_fit(plan.tiles, plan.kinds)
}

// Whether a book can have so many nodes.
pub fn nodes_in_range(nodes: usize) -> bool
    ensures { Tests result (NodesInRange nodes) }
{
    (2..=64).contains(&nodes)
}

// Whether each field of an image's header is in its range.
pub fn fields_in_range(image: &[u8], book: Book) -> bool
    requires { (header_length ≤ length image.now) × HeaderOf image.now book }
    ensures { Tests result (FieldsInRange image.now) }
{
    if Book::STREAMS < book.streams || Book::HOPS < book.hops || image[15] != 0 {
        return false;
    }
    plan_in_range(book.plan) && nodes_in_range(book.nodes)
}
