// The entries of another planner's tables, counted through all of them: whether they are entries at all, and where one of a stream comes next.

#![tactic(auto)]

pub mod keys;
pub mod tracing;

ghost use Rattle.std.specs.Prelude.{◌≡◌, ℕ, ◌+◌, ◌*◌, ◌<◌, ◌≤◌, length};
ghost use Rattle.rules.specs.Words.{Tests, TwoBytes};
ghost use Rattle.rules.specs.Tiles.{PlanInRange, control_slots};
ghost use Rattle.rules.specs.Topology.{NodesInRange};
ghost use Rattle.rules.specs.Records.{the_plan};
ghost use Rattle.rules.specs.Tables.{operation_at, id_at, TablesOfEntries};
ghost use Rattle.rules.proofs.Seen.{Has};
ghost use Rattle.entries.specs.Entries.{OfWay, EntryIn, EntriesIn, NextOf, Receives, ReceiverOf};

use operations::ENTRY;
use rules::{Node, Plan, Slot, Tile};

// The operation of an entry.
pub fn operation_at(tables: &[u8], i: usize) -> u8
    requires { 3 * i + 3 ≤ length tables.now }
    ensures { result ≡ operation_at tables.now i }
{
    tables[ENTRY * i]
}

// Its id.
pub fn id_at(tables: &[u8], i: usize) -> u16
    requires { 3 * i + 3 ≤ length tables.now }
    ensures { (result ≡ id_at tables.now i) × TwoBytes result }
{
    image::word_at(tables, ENTRY * i + 1)
}

// The way of an operation, 1 or 2, if it is one of a stream.
pub fn way_of(operation: u8) -> Option<u8>
    ensures { OfWay operation result }
{
    match operation {
        operations::SEND..=operations::DELIVER => Some(1),
        operations::SECOND_SEND..=operations::SECOND_DELIVER => Some(2),
        _ => None,
    }
}

// Whether an operation and an id are an entry of a slot that is control, or is not.
fn is_entry(control: bool, operation: u8, id: u16) -> bool
    ensures { Tests result (EntryIn control operation id) }
{
    if control {
        return operation == operations::CONTROL && id == 0;
    }
    match way_of(operation) {
        Some(_) => id != 0,
        None => operation == operations::SLEEP && id == 0,
    }
}

// Whether an entry is one of a slot that is control, or is not.
fn entry_holds(tables: &[u8], i: usize, control: bool) -> bool
    requires { 3 * i + 3 ≤ length tables.now }
    ensures { Tests result (EntryIn control (operation_at tables.now i) (id_at tables.now i)) }
{
    is_entry(control, operation_at(tables, i), id_at(tables, i))
}

// Whether the entries of a tile, from one on, are such, with control in exactly so many slots at its front.
fn tile_holds(tables: &[u8], first: usize, slots: usize, control: usize) -> bool
    requires { 3 * (first + slots) ≤ length tables.now }
    ensures { Tests result (EntriesIn tables.now first slots control) }
{
    (0..slots).all(|place| entry_holds(tables, first + place, place < control))
}

// Whether those of so many tiles are.
fn tiles_hold(tables: &[u8], plan: Plan, tiles: u16) -> bool
    requires { PlanInRange (the_plan plan) × (3 * (tiles * plan.slots.0) ≤ length tables.now) }
    ensures { Tests result ((t : ℕ) → t < tiles → EntriesIn tables.now (t * plan.slots.0) plan.slots.0 (control_slots (the_plan plan) t)) }
{
    let slots = usize::from(plan.slots.0);
    (0..tiles).all(|tile| {
        let control = rules::control_slots(plan, Tile(tile));
        tile_holds(
            tables,
            usize::from(tile) * slots,
            slots,
            usize::from(control.0),
        )
    })
}

// Whether the tables of so many nodes have the right length and are entries, as the plan wants them.
pub fn hold(plan: Plan, nodes: u8, tables: &[u8]) -> bool
    requires { PlanInRange (the_plan plan) × NodesInRange nodes }
    ensures { Tests result (TablesOfEntries (the_plan plan) nodes tables.now) }
{
    let tiles = rules::SHORT * u16::from(nodes);
    tables.len() == ENTRY * (usize::from(tiles) * usize::from(plan.slots.0))
        && tiles_hold(tables, plan, tiles)
}

// Whether an entry is this operation and id.
fn has(tables: &[u8], i: usize, operation: u8, id: u16) -> bool
    requires { 3 * i + 3 ≤ length tables.now }
    ensures { Tests result (Has tables.now i operation id) }
{
    operation_at(tables, i) == operation && id_at(tables, i) == id
}

// The first entry from one on, before another, with the operation and the id.
pub fn next(tables: &[u8], from: usize, to: usize, operation: u8, id: u16) -> Option<usize>
    requires { (from ≤ to) × (3 * to ≤ length tables.now) }
    ensures { NextOf tables.now from to operation id result }
{
    (from..to).find(|&i| has(tables, i, operation, id))
}

// Whether in an entry a node receives on the way for the id.
fn receives(tables: &[u8], i: usize, way: u8, id: u16) -> bool
    requires { 3 * i + 3 ≤ length tables.now }
    ensures { Tests result (Receives tables.now i way id) }
{
    let receive = operations::on_way(way, operations::RECEIVE);
    let deliver = operations::on_way(way, operations::DELIVER);
    has(tables, i, receive, id) || has(tables, i, deliver, id)
}

// The first of so many nodes that in a slot of its table, which has so many slots, receives on the way for the id.
pub fn receiver(
    tables: &[u8],
    nodes: usize,
    slots: Slot,
    slot: Slot,
    way: u8,
    id: u16,
) -> Option<Node>
    requires { (nodes ≤ 64) × (3 * (nodes * slots.0) ≤ length tables.now) × (slot.0 < slots.0) }
    ensures { ReceiverOf tables.now nodes slots.0 slot.0 way id result }
{
    let table = usize::from(slots.0);
    let node = (0..nodes).find(|&node| receives(
        tables,
        node * table + usize::from(slot.0),
        way,
        id,
    ))?;
    Some(Node(node as u8))
}
