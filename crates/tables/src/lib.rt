// A node's slot table, by parts of the cycle.

#![tactic(auto)]

ghost use Rattle.std.specs.Prelude.{◌≡◌, ℕ, ◌+◌, ◌*◌, ◌%◌, ◌≤◌, ◌<◌, length};
ghost use Rattle.rules.specs.Words.{Tests};
ghost use Rattle.rules.specs.Tiles.{PlanInRange, cycle_tiles, slots_of};
ghost use Rattle.rules.specs.Records.{the_plan};
ghost use Rattle.rules.specs.Book.{hops};
ghost use Rattle.rules.specs.Image.{plan_of};
ghost use Rattle.rules.specs.Table.{table_length};
ghost use Rattle.rules.specs.Calls.{PartInRange};
ghost use Rattle.rules.proofs.Reading.{LawfulImage};
ghost use Rattle.image.specs.Header.{HeaderOf};
ghost use Rattle.operations.specs.Operations.{where_working};
ghost use Rattle.tables.specs.Entries.{From, Over, Put, Repeated, Stretch, Idle, ToEntry, FromEntry, RowEntry, RowOn, PartFits, InRow, InHop, AtStop, StreamOf, Filled};

use image::Book;
use image::row::{Row, Rows};
use operations::ENTRY;
use rules::{Node, Plan, Slot, Tile};

// At most 100 tiles are expanded in one call.
const MOST_TILES: u16 = 100;

// Writes the entry of a slot.
fn put(out: &mut [u8], slot: usize, operation: u8, id: u16)
    requires { 3 * slot + 3 ≤ length out.old }
    ensures { Put slot operation id out.old out.new }
{
    let [high, low] = operations::where_working(operation, id).to_be_bytes();
    let at = ENTRY * slot;
    out[at..at + ENTRY].copy_from_slice(&[operation, high, low]);
}

// Writes the entry at a place and at every step from there on, below the end.
fn repeat(out: &mut [u8], place: usize, step: Slot, end: usize, operation: u8, id: u16)
    requires { (0 < step.0) × (3 * end ≤ length out.old) }
    ensures { Over end (Repeated place step.0 operation (where_working operation id)) out.old out.new }
{
    for slot in (place..end).step_by(usize::from(step.0)) {
        put(out, slot, operation, id);
    }
}

// Writes an operation without a stream in some slots, one after the other.
fn stretch(out: &mut [u8], start: usize, slots: usize, operation: u8)
    requires { 3 * (start + slots) ≤ length out.old }
    ensures { (n : ℕ) → start + slots ≤ n → Over n (Stretch start operation slots) out.old out.new }
{
    for place in 0..slots {
        put(out, start + place, operation, 0);
    }
}

// Writes the part of a table without streams: sleep everywhere, and then the control slots of each tile.
fn blank(plan: Plan, first: Tile, tiles: Tile, out: &mut [u8])
    requires { PlanInRange (the_plan plan) × (first.0 + tiles.0 ≤ cycle_tiles) × (table_length (the_plan plan) tiles.0 ≤ length out.old) }
    ensures { Over (slots_of (the_plan plan) tiles.0) (From (slots_of (the_plan plan) first.0) (Idle (the_plan plan))) out.old out.new }
{
    let slots = usize::from(plan.slots.0);
    stretch(out, 0, usize::from(tiles.0) * slots, operations::SLEEP);
    for tile in 0..tiles.0 {
        let start = usize::from(tile) * slots;
        let control = rules::control_slots(plan, Tile(first.0 + tile));
        stretch(out, start, usize::from(control.0), operations::CONTROL);
    }
}

// A part of the cycle: the slots of a tile, the slot where it starts, and how many slots it has.
#[derive(Clone, Copy)]
struct Part {
    pub slots: Slot,
    pub start: Slot,
    pub count: Slot,
}

// A stream by how its entries repeat in a part: its id and way, the slots of its period, how late in it the part starts, and its hops.
#[derive(Clone, Copy)]
struct Stream {
    pub id: u16,
    pub way: u8,
    pub step: Slot,
    pub late: Slot,
    pub hops: usize,
}

// The stream of a row.
fn stream_of(row: &Row<'_>, part: Part) -> Stream
    requires { RowOn part.slots.0 row.now × (part.slots.0 ≤ 32) }
    ensures { StreamOf row.now part result }
{
    let step = row.period().0 * part.slots.0;
    Stream {
        id: row.id(),
        way: row.way(),
        step: Slot(step),
        late: Slot(part.start.0 % step),
        hops: row.hops(),
    }
}

// Where a hop of the offset first comes in a part that starts so late in its period.
fn next_turn(offset: Slot, late: Slot, step: Slot) -> Slot
    requires { (offset.0 < step.0) × (late.0 < step.0) }
    ensures { (result.0 < step.0) × ((late.0 + result.0) % step.0 ≡ offset.0) }
{
    if late <= offset {
        Slot(offset.0 - late.0)
    } else {
        Slot(offset.0 + (step.0 - late.0))
    }
}

// Writes an operation, as it is on the row's way, in the slots of hop i of a row.
fn hop(row: &Row<'_>, part: Part, stream: Stream, i: usize, operation: u8, out: &mut [u8])
    requires row_on { RowOn part.slots.0 row.now × PartFits part out.old × StreamOf row.now part stream }
    requires i_lt_hops { (i < stream.hops) × (operation ≤ 4) }
    ensures { InHop row.now part i operation out.old out.new }
{
    let place = next_turn(row.offset(i), stream.late, stream.step);
    let written = operations::on_way(stream.way, operation);
    repeat(
        out,
        usize::from(place.0),
        stream.step,
        usize::from(part.count.0),
        written,
        stream.id,
    );
}

// Writes what the node at a place of the route does in the hop that leads there.
fn arrive(row: &Row<'_>, part: Part, stream: Stream, place: usize, out: &mut [u8])
    requires row_on { RowOn part.slots.0 row.now × PartFits part out.old × StreamOf row.now part stream }
    requires place_le_hops { place ≤ stream.hops }
    ensures { AtStop row.now part place (ToEntry place) out.old out.new }
{
    if 0 < place {
        let operation = operations::arriving(place, stream.hops);
        hop(row, part, stream, place - 1, operation, out);
    }
}

// Writes what it does in the hop that leads on.
fn leave(row: &Row<'_>, part: Part, stream: Stream, place: usize, out: &mut [u8])
    requires { RowOn part.slots.0 row.now × PartFits part out.old × StreamOf row.now part stream }
    ensures { AtStop row.now part place (FromEntry place) out.old out.new }
{
    if place < stream.hops {
        hop(row, part, stream, place, operations::leaving(place), out);
    }
}

// Writes the entries of a node that stands at a place of the route of a row.
fn visit(row: &Row<'_>, part: Part, place: usize, out: &mut [u8])
    requires { RowOn part.slots.0 row.now × PartFits part out.old × (place ≤ hops row.now) }
    ensures { AtStop row.now part place RowEntry out.old out.new }
{
    let stream = stream_of(row, part);
    arrive(row, part, stream, place, out);
    leave(row, part, stream, place, out);
}

// Writes the node's entries in a row.
fn put_row(row: &Row<'_>, part: Part, node: Node, out: &mut [u8])
    requires { RowOn part.slots.0 row.now × PartFits part out.old }
    ensures { InRow row.now part node.0 RowEntry out.old out.new }
{
    if let Some(place) = operations::stop_of(row, node) {
        visit(row, part, place, out);
    }
}

// The part of the cycle that has so many tiles from the first on.
fn part_of(plan: Plan, first: Tile, tiles: Tile) -> Part
    requires { PlanInRange (the_plan plan) × (first.0 + tiles.0 ≤ cycle_tiles) }
    ensures { (result.slots.0 ≡ plan.slots.0) × (result.start.0 ≡ slots_of (the_plan plan) first.0) × (result.count.0 ≡ slots_of (the_plan plan) tiles.0) }
{
    let slots = plan.slots;
    Part {
        slots,
        start: Slot(first.0 * slots.0),
        count: Slot(tiles.0 * slots.0),
    }
}

// Whether so many tiles from the first on are at least one, not too many, and all in the cycle.
pub fn part_in_range(first: Tile, tiles: Tile) -> bool
    ensures { Tests result (PartInRange first.0 tiles.0) }
{
    (1..=MOST_TILES).contains(&tiles.0) && first.0 <= rules::CYCLE - tiles.0
}

// How long a table of so many tiles is.
pub fn table_length(plan: Plan, tiles: Tile) -> usize
    requires { PlanInRange (the_plan plan) }
    ensures { result ≡ table_length (the_plan plan) tiles.0 }
{
    ENTRY * (usize::from(tiles.0) * usize::from(plan.slots.0))
}

// Writes a part of the node's table: its entry in every slot of so many tiles from the first on.
pub fn fill(image: &[u8], book: Book, node: Node, first: Tile, tiles: Tile, out: &mut [u8])
    requires lawful_image { LawfulImage image.now × HeaderOf image.now book }
    requires tiles_bound { (first.0 + tiles.0 ≤ cycle_tiles) × (table_length (plan_of image.now) tiles.0 ≤ length out.old) }
    ensures { Filled image.now node.0 first.0 tiles.0 out.old out.new }
{
    blank(book.plan, first, tiles, out);
    let part = part_of(book.plan, first, tiles);
    for row in Rows::of(image, book) {
        put_row(&row, part, node, out);
    }
}
