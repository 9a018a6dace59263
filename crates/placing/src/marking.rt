// A placing, marked in the index.
ghost use Rattle.std.specs.Prelude.{◌≡◌, ◌≤◌, length};
ghost use Rattle.rules.specs.Topology.{most_route_hops};
ghost use Rattle.rules.specs.Records.{the_route, the_offsets};
ghost use Rattle.index.specs.Index.{index_length};
ghost use Rattle.placing.specs.Marking.{Markable, Marked};

use rules::{Placed, Slot, Tile};

// Marks the hops of a route that has these offsets in every slot that they take, and notes their period.
pub fn mark(slots: Slot, period: Tile, placed: Placed, index: &mut [u64; index::WORDS])
    requires { Markable slots.0 period.0 (the_route placed.route) (the_offsets placed) × (placed.route.hops ≤ most_route_hops) × (length index.old ≡ index_length) }
    ensures { Marked slots.0 period.0 (the_route placed.route) (the_offsets placed) index.old index.new }
{
    let repeats = index::repeats_of(slots, period);
    let nodes = &placed.route.nodes;
    for i in 0..placed.route.hops {
        index::put(index, repeats, placed.offsets[i], nodes[i], nodes[i + 1]);
    }
    index::note(index, period);
}
