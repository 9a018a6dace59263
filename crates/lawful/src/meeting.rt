// Whether clashing hops of different rows meet: each row is compared with the index of the rows before it, and by the plain
// test with those that the index leaves out.
ghost use Rattle.std.specs.Prelude.{◌<◌, ◌≡◌, length, replicate};
ghost use Rattle.rules.specs.Book.{hops};
ghost use Rattle.rules.specs.Image.{plan_of};
ghost use Rattle.index.specs.Index.{index_length};
ghost use Rattle.placing.specs.plain.Plain.{RowsThere};
ghost use Rattle.rows.specs.Hops.{RowPlaced, HearingRead};
ghost use Rattle.lawful.specs.meeting.Meeting.{HopMarked, RowMarked, RowCompared, RowsIndexed, RowBehind, HopsRead};

use bitset::clash;
use image::Book;
use image::row::{Row, Rows};
use index::Repeats;
use placing::plain;
use rules::Slot;

// Whether a node that clashes with hop i of the row is at work in a slot that it takes, or it agrees with a clashing hop of the
// rows that have moduli; where neither is so the hop is marked.
fn hop_meets(
    row: &Row<'_>,
    i: usize,
    hearing: &[u64],
    repeats: Repeats,
    image: &[u8],
    start: usize,
    rows: usize,
    moduli: &[u16; plain::ROWS],
    index: &mut [u64; index::WORDS],
) -> bool
    requires { RowPlaced image.now row.now repeats × HearingRead image.now hearing.now × (i < hops row.now) × (length index.old ≡ index_length)
        × RowsThere image.now start rows }
    ensures { HopMarked image.now start rows moduli.now row.now i repeats index.old index.new result }
{
    let from = row.node(i);
    let to = row.node(i + 1);
    let offset = row.offset(i);
    let reach = clash::reach_of(hearing, from, to);
    if index::finds(index, repeats, offset, reach) {
        return true;
    }
    if plain::agrees(image, start, rows, moduli, reach, offset) {
        return true;
    }
    index::put(index, repeats, offset, from, to);
    false
}

// Marks the row's hops up to the first that meets one of the rows before; whether there is such a hop.
fn row_meets(
    row: &Row<'_>,
    hearing: &[u64],
    repeats: Repeats,
    image: &[u8],
    start: usize,
    rows: usize,
    moduli: &[u16; plain::ROWS],
    index: &mut [u64; index::WORDS],
) -> bool
    requires { RowPlaced image.now row.now repeats × HearingRead image.now hearing.now × (length index.old ≡ index_length) × RowsThere image.now start rows }
    ensures { RowMarked image.now start rows moduli.now row.now index.old index.new result }
{
    for i in 0..row.hops() {
        if hop_meets(row, i, hearing, repeats, image, start, rows, moduli, index) {
            return true;
        }
    }
    false
}

// Compares the row with the n rows before it, and puts it into the index; whether a hop of it meets one of theirs.
fn compare(
    row: &Row<'_>,
    hearing: &[u64],
    image: &[u8],
    start: usize,
    n: usize,
    slots: Slot,
    moduli: &mut [u16; plain::ROWS],
    index: &mut [u64; index::WORDS],
) -> bool
    requires { RowBehind image.now start n row.now index.old moduli.old × HearingRead image.now hearing.now × (slots.0 ≡ (plan_of image.now).slots) }
    ensures { RowCompared image.now start n row.now index.old index.new result × (length moduli.new ≡ 64) }
{
    let period = row.period();
    let repeats = index::repeats_of(slots, period);
    let slow = index::has_slow(index);
    let rows = plain::weigh(image, start, n, slots, period, slow, moduli);
    if row_meets(row, hearing, repeats, image, start, rows, moduli, index) {
        return true;
    }
    index::note(index, period);
    false
}

// Whether clashing hops of different rows meet, marked in an index without marks; where none do, the index is that of the rows.
pub fn hops_meet(image: &[u8], book: Book, hearing: &[u64], index: &mut [u64; index::WORDS]) -> bool
    requires { HopsRead image.now book hearing.now × (index.old ≡ replicate index_length 0) }
    ensures { RowsIndexed image.now index.new result }
{
    let slots = book.plan.slots;
    let mut moduli = [0u16; plain::ROWS];
    let start = book.rows_start();
    for (n, row) in Rows::new(image, start, book.streams).enumerate() {
        if compare(&row, hearing, image, start, n, slots, &mut moduli, index) {
            return true;
        }
    }
    false
}
