// Whether a row that was cut out of an image is kept beside those kept before it: each is judged by itself, against the last row
// kept, against what is left of its account, against the counts of a book, and against the index of the rows kept, or by the
// plain test where that leaves one out.
ghost use Rattle.std.specs.Prelude.{◌≡◌, false, ℕ, ◌<◌, ◌≤◌, length, IfSome};
ghost use Rattle.rules.specs.Words.{Tests};
ghost use Rattle.rules.specs.Tiles.{PlanInRange, Period, short_tiles};
ghost use Rattle.rules.specs.Book.{hops};
ghost use Rattle.rules.specs.Image.{plan_of, FieldsInRange};
ghost use Rattle.rules.specs.Said.{said};
ghost use Rattle.index.specs.Index.{index_length};
ghost use Rattle.index.specs.Marks.{Adds, HopsTake, InReach};
ghost use Rattle.image.specs.Places.{row_at, Whole, InRange};
ghost use Rattle.rows.specs.Walk.{RowStands};
ghost use Rattle.placing.specs.Marking.{Markable};
ghost use Rattle.placing.specs.plain.Plain.{RowThere, AgreesRow};
ghost use Rattle.rows.specs.Hops.{RowPlaced, HearingRead};
ghost use Rattle.damaged.specs.judging.Placed.{placed, RowsPlaced, WeighsPlaced, AgreesPlaced, HopAgrees, RowAgrees, RowMeets, RowBeside};
ghost use Rattle.damaged.specs.judging.Keeping.{SiteRead, HeaderRead, SomeBeside, Behind, Room, ReasonFor, KeptMore, Judges};

use accounts::purses;
use bitset::clash;
use bitset::clash::Reach;
use image::Book;
use image::row::Row;
use index::Repeats;
use placing::plain;
use rules::refusals::Refusal;
use rules::{Slot, Tile};

// What was kept so far: how many rows and hops, and where the last row stands, if there is one.
#[derive(Clone, Copy, Default)]
pub struct Kept {
    pub rows: usize,
    pub hops: usize,
    pub last: Option<usize>,
}

// The moduli of the first n rows kept, beside hops of a period.
fn weigh_rows(
    image: &[u8],
    places: &[usize; plain::ROWS],
    n: usize,
    slots: Slot,
    period: Tile,
    moduli: &mut [u16; plain::ROWS],
)
    requires { RowsPlaced image.now places.now n × PlanInRange (plan_of image.now) × (slots.0 ≡ (plan_of image.now).slots) × Period period.0 }
    ensures { WeighsPlaced image.now places.now n period.0 moduli.new n }
{
    for i in 0..n {
        moduli[i] = plain::modulus(slots, period, image::period_at(image, places[i]));
    }
}

// The same, without a look where the index leaves out neither the period nor, as it says, any of the rows; how many have to be looked at.
fn weigh(
    image: &[u8],
    places: &[usize; plain::ROWS],
    n: usize,
    slots: Slot,
    period: Tile,
    slow: bool,
    moduli: &mut [u16; plain::ROWS],
) -> usize
    requires { RowsPlaced image.now places.now n × PlanInRange (plan_of image.now) × (slots.0 ≡ (plan_of image.now).slots) × Period period.0
        × (slow ≡ false → (i : ℕ) → i < n → (placed image.now places.now i).period ≤ short_tiles) }
    ensures { WeighsPlaced image.now places.now n period.0 moduli.new result }
{
    if slow || rules::SHORT < period.0 {
        weigh_rows(image, places, n, slots, period, moduli);
        n
    } else {
        0
    }
}

// Whether the row at a place has a modulus, and a hop in reach whose offset agrees with this one.
fn row_agrees(image: &[u8], at: usize, modulus: u16, reach: Reach, o: Slot) -> bool
    requires { RowThere image.now at }
    ensures { Tests result ((0 < modulus) × AgreesRow (InReach reach) (row_at image.now at) modulus o.0) }
{
    plain::row_agrees(&Row::new(image, at), modulus, reach, o)
}

// Whether of the first so many rows kept one with a modulus has a hop in reach whose offset agrees with this one.
fn agrees(
    image: &[u8],
    places: &[usize; plain::ROWS],
    rows: usize,
    moduli: &[u16; plain::ROWS],
    reach: Reach,
    o: Slot,
) -> bool
    requires { RowsPlaced image.now places.now rows }
    ensures { Tests result (AgreesPlaced (InReach reach) image.now places.now rows moduli.now o.0) }
{
    (0..rows).any(|i| row_agrees(image, places[i], moduli[i], reach, o))
}

// Whether by the index a node that clashes with hop i of the row is at work in a slot that it takes, or it agrees with a
// clashing hop of the rows kept that have moduli.
fn hop_finds(
    row: &Row<'_>,
    i: usize,
    hearing: &[u64],
    repeats: Repeats,
    image: &[u8],
    places: &[usize; plain::ROWS],
    rows: usize,
    moduli: &[u16; plain::ROWS],
    index: &[u64; index::WORDS],
) -> bool
    requires { RowPlaced image.now row.now repeats × HearingRead image.now hearing.now × (i < hops row.now) × RowsPlaced image.now places.now rows }
    ensures { Tests result (HopAgrees index.now image.now places.now rows moduli.now row.now i) }
{
    let from = row.node(i);
    let to = row.node(i + 1);
    let offset = row.offset(i);
    let reach = clash::reach_of(hearing, from, to);
    index::finds(index, repeats, offset, reach)
        || agrees(image, places, rows, moduli, reach, offset)
}

// Whether this is so for a hop of the row; the index stays as it is.
fn row_finds(
    row: &Row<'_>,
    hearing: &[u64],
    repeats: Repeats,
    image: &[u8],
    places: &[usize; plain::ROWS],
    rows: usize,
    moduli: &[u16; plain::ROWS],
    index: &[u64; index::WORDS],
) -> bool
    requires { RowPlaced image.now row.now repeats × HearingRead image.now hearing.now × RowsPlaced image.now places.now rows }
    ensures { Tests result (RowAgrees index.now image.now places.now rows moduli.now row.now) }
{
    for i in 0..row.hops() {
        if hop_finds(row, i, hearing, repeats, image, places, rows, moduli, index) {
            return true;
        }
    }
    false
}

// Whether the row meets one of the n rows kept.
fn meets_kept(
    row: &Row<'_>,
    slots: Slot,
    hearing: &[u64],
    image: &[u8],
    places: &[usize; plain::ROWS],
    n: usize,
    index: &[u64; index::WORDS],
) -> bool
    requires { RowBeside image.now places.now n row.now index.now × HearingRead image.now hearing.now × (slots.0 ≡ (plan_of image.now).slots) }
    ensures { Tests result (RowMeets index.now image.now places.now n row.now) }
{
    let period = row.period();
    let repeats = index::repeats_of(slots, period);
    let slow = index::has_slow(index);
    let mut moduli = [0u16; plain::ROWS];
    let rows = weigh(image, places, n, slots, period, slow, &mut moduli);
    row_finds(row, hearing, repeats, image, places, rows, &moduli, index)
}

// Whether the row may come behind the last of those kept.
fn comes_behind(image: &[u8], last: Option<usize>, row: &Row<'_>) -> bool
    requires { FieldsInRange image.now × IfSome last (RowStands image.now) × InRange row.now }
    ensures { Tests result (Behind image.now last row.now) }
{
    let before = last.map(|at| Row::new(image, at));
    rows::comes_behind(&before, row)
}

// Whether a book has room for a row of so many hops more.
fn has_room(kept: Kept, hops: usize) -> bool
    requires { (kept.hops ≤ 512) × (hops ≤ 255) }
    ensures { Tests result (Room kept hops) }
{
    kept.rows < Book::STREAMS && kept.hops + hops <= Book::HOPS
}

// Whether there is no reason to drop the row: 15, 8 or 16, the first that applies.
fn stays_beside(
    image: &[u8],
    book: Book,
    links: &[u64],
    hearing: &[u64],
    at: usize,
    kept: Kept,
    places: &[usize; plain::ROWS],
    left: &[u32; Book::ACCOUNTS],
    index: &[u64; index::WORDS],
) -> Result<(), Refusal>
    requires { SiteRead image.now book links.now hearing.now × Whole image.now at × SomeBeside image.now kept places.now left.now index.now }
    ensures { ReasonFor image.now at kept places.now left.now index.now (said result) }
{
    let row = Row::new(image, at);
    if !rows::holds(&row, image, book, links) {
        return Err(Refusal::UnlawfulRows);
    }
    if !comes_behind(image, kept.last, &row) {
        return Err(Refusal::UnlawfulRows);
    }
    if !purses::may_draw(image, book, &row, left) {
        return Err(Refusal::UnlawfulRows);
    }
    if !has_room(kept, row.hops()) {
        return Err(Refusal::BookFull);
    }
    let slots = book.plan.slots;
    if meets_kept(&row, slots, hearing, image, places, kept.rows, index) {
        return Err(Refusal::Clash);
    }
    Ok(())
}

// Marks every hop of the row.
fn mark_row(row: &Row<'_>, slots: Slot, index: &mut [u64; index::WORDS])
    requires { Markable slots.0 row.now.period row.now.route row.now.offsets × (length index.old ≡ index_length) }
    ensures { Adds (HopsTake slots.0 row.now (hops row.now)) index.old index.new }
{
    let repeats = index::repeats_of(slots, row.period());
    for i in 0..row.hops() {
        index::put(index, repeats, row.offset(i), row.node(i), row.node(i + 1));
    }
}

// Keeps a row that no reason is given against: it is counted, its place noted, it draws from its account and is put into the index.
fn keep(
    image: &[u8],
    book: Book,
    at: usize,
    kept: Kept,
    places: &mut [usize; plain::ROWS],
    left: &mut [u32; Book::ACCOUNTS],
    index: &mut [u64; index::WORDS],
) -> Kept
    requires { HeaderRead image.now book × SomeBeside image.now kept places.old left.old index.old × ReasonFor image.now at kept places.old left.old index.old 0 }
    ensures { KeptMore image.now at kept places.old left.old index.old result places.new left.new index.new }
{
    let row = Row::new(image, at);
    mark_row(&row, book.plan.slots, index);
    index::note(index, row.period());
    purses::draw(image, book, &row, left);
    places[kept.rows] = at;
    Kept {
        rows: kept.rows + 1,
        hops: kept.hops + row.hops(),
        last: Some(at),
    }
}

// Judges the row at the place: what is kept then, or the reason to drop it.
pub fn judge(
    image: &[u8],
    book: Book,
    links: &[u64],
    hearing: &[u64],
    at: usize,
    kept: Kept,
    places: &mut [usize; plain::ROWS],
    left: &mut [u32; Book::ACCOUNTS],
    index: &mut [u64; index::WORDS],
) -> Result<Kept, Refusal>
    requires { SiteRead image.now book links.now hearing.now × Whole image.now at × SomeBeside image.now kept places.old left.old index.old }
    ensures { Judges image.now at kept places.old left.old index.old result places.new left.new index.new }
{
    stays_beside(image, book, links, hearing, at, kept, places, left, index)?;
    Ok(keep(image, book, at, kept, places, left, index))
}
