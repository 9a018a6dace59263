// Reads a stream's row off the tables of another planner: its period, and its route and offsets, hop by hop.
ghost use Rattle.std.specs.Prelude.{◌≡◌, ◌+◌, ◌*◌, ◌/◌, ◌<◌, ◌≤◌, length};
ghost use Rattle.entries.specs.tracing.Rows.{PeriodRead, TracedOf};

use rules::{Node, Placed, Route, Slot, Tile};

// The period of a stream whose source sends first in an entry: how far it is from there to where it sends again, or 100 tiles where it does not.
pub fn period(tables: &[u8], tile: Slot, slots: Slot, start: usize, way: u8, id: u16) -> Tile
    requires { (1 ≤ tile.0) × (tile.0 ≤ 32) × (slots.0 ≡ 100 * tile.0) × (3 * ((start / slots.0 + 1) * slots.0) ≤ length tables.now) }
    ensures { PeriodRead tables.now slots.0 start way id result.0 }
{
    let table = usize::from(slots.0);
    let end = (start / table + 1) * table;
    let send = operations::on_way(way, operations::SEND);
    let again = crate::next(tables, start + 1, end, send, id);
    match again {
        Some(again) => Tile(((again - start) / usize::from(tile.0)) as u16),
        None => Tile(rules::SHORT),
    }
}

// The route and the offsets of a stream whose source sends first in an entry, each hop by who receives in its slot and where that node forwards; nothing
// where they lead nowhere.
pub fn trace(
    tables: &[u8],
    nodes: usize,
    slots: Slot,
    start: usize,
    way: u8,
    id: u16,
) -> Option<Placed>
    requires { (nodes ≤ 64) × (1 ≤ slots.0) × (slots.0 ≤ 3200) × (3 * (nodes * slots.0) ≤ length tables.now) × (start < nodes * slots.0) }
    ensures { TracedOf tables.now nodes slots.0 start way id result }
{
    let deliver = operations::on_way(way, operations::DELIVER);
    let forward = operations::on_way(way, operations::FORWARD);
    let table = usize::from(slots.0);
    let mut route = [Node(0); rules::ROUTE_HOPS + 1];
    let mut offsets = [Slot(0); rules::ROUTE_HOPS];
    route[0] = Node((start / table) as u8);
    let mut at = start;
    for hop in 0..rules::ROUTE_HOPS {
        let slot = Slot((at % table) as u16);
        let node = crate::receiver(tables, nodes, slots, slot, way, id)?;
        let receiver = usize::from(node.0);
        offsets[hop] = slot;
        route[hop + 1] = node;
        let heard = receiver * table + usize::from(slot.0);
        if crate::operation_at(tables, heard) == deliver {
            let hops = hop + 1;
            let route = Route { hops, nodes: route };
            return Some(Placed { route, offsets });
        }
        let end = (receiver + 1) * table;
        at = crate::next(tables, heard + 1, end, forward, id)?;
    }
    None
}
