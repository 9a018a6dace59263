// The plain test: whether a hop meets a clashing hop of the rows that the index leaves out, by their periods and offsets.
ghost use Rattle.std.specs.Prelude.{◌≡◌, false, ◌⊎◌, ℕ, ◌<◌, ◌≤◌, length};
ghost use Rattle.rules.specs.Words.{◌∈◌, Tests};
ghost use Rattle.rules.specs.Tiles.{PlanInRange, Period, Gcd, short_tiles};
ghost use Rattle.rules.specs.Topology.{most_route_hops};
ghost use Rattle.rules.specs.Book.{hops};
ghost use Rattle.rules.specs.Image.{plan_of};
ghost use Rattle.rules.specs.Records.{the_route, the_offsets};
ghost use Rattle.bitset.specs.clash.Reach.{hop};
ghost use Rattle.index.specs.Marks.{InReach};
ghost use Rattle.placing.specs.plain.Plain.{LeftOut, Weighed, nth_row, SmallRow, RowsThere, Weighs, HasEnd, AgreesHop, AgreesRow, Agrees, MeetsRouteHop, MeetsRoute};

use bitset::clash::Reach;
use image::row::{Row, Rows};
use rules::{Node, Placed, Slot, Tile};

// A modulus for each row of a book.
pub const ROWS: usize = 64;

// The greatest common divisor, by Euclid's steps.
pub fn divisor(a: Tile, b: Tile) -> Tile
    ensures { Gcd a.0 b.0 result.0 }
{
    let mut x = a.0;
    let mut y = b.0;
    // std has no greatest common divisor, and its steps count no index.
    while 0 < y {
        let rest = x % y;
        x = y;
        y = rest;
    }
    Tile(x)
}

// Whether the index leaves one of two periods out.
fn left_out(period: Tile, row: Tile) -> bool
    ensures { Tests result (LeftOut period.0 row.0) }
{
    rules::SHORT < period.0 || rules::SHORT < row.0
}

// The modulus of a row beside hops of a period; 0 where the index leaves neither out, as an Option would double 64 of them.
#[tactic(auto, using(crate::proofs::plain::Euclid::modulus_fits, crate::proofs::plain::Euclid::weighed))]
pub fn modulus(slots: Slot, period: Tile, row: Tile) -> u16
    requires { (1 ≤ slots.0) × (slots.0 ≤ 32) × Period period.0 × Period row.0 }
    ensures { Weighed slots.0 period.0 row.0 result }
{
    if !left_out(period, row) {
        return 0;
    }
    divisor(period, row).0 * slots.0
}

// The moduli of the first n rows from the start on; how many have to be looked at, up to the last that the index leaves out.
fn weigh_rows(
    image: &[u8],
    start: usize,
    n: usize,
    slots: Slot,
    period: Tile,
    moduli: &mut [u16; ROWS],
) -> usize
    requires { RowsThere image.now start n × PlanInRange (plan_of image.now) × (slots.0 ≡ (plan_of image.now).slots) × Period period.0 × (length moduli.old ≡ 64) }
    ensures { Weighs image.now start n period.0 moduli.new result }
{
    let mut rows = 0;
    for (i, row) in Rows::new(image, start, n).enumerate() {
        moduli[i] = modulus(slots, period, row.period());
        if moduli[i] != 0 {
            rows = i + 1;
        }
    }
    rows
}

// The same, without a look where the index leaves out neither the period nor, as it says, any of the rows.
pub fn weigh(
    image: &[u8],
    start: usize,
    n: usize,
    slots: Slot,
    period: Tile,
    slow: bool,
    moduli: &mut [u16; ROWS],
) -> usize
    requires { RowsThere image.now start n × PlanInRange (plan_of image.now) × (slots.0 ≡ (plan_of image.now).slots) × Period period.0 × (length moduli.old ≡ 64)
        × (slow ≡ false → (i : ℕ) → i < n → (nth_row image.now start i).period ≤ short_tiles) }
    ensures { Weighs image.now start n period.0 moduli.new result }
{
    if slow || rules::SHORT < period.0 {
        weigh_rows(image, start, n, slots, period, moduli)
    } else {
        0
    }
}

// Whether an end of the hop is in reach.
fn in_reach(reach: Reach, from: Node, to: Node) -> bool
    requires { (from.0 < 64) × (to.0 < 64) }
    ensures { Tests result (HasEnd (InReach reach) (hop from to)) }
{
    bitset::has(reach.senders, usize::from(from.0))
        || bitset::has(reach.receivers, usize::from(to.0))
}

// Whether hop i of the row is in reach, and its offset agrees with this one.
fn hop_agrees(row: &Row<'_>, i: usize, modulus: u16, reach: Reach, o: Slot) -> bool
    requires { SmallRow row.now × (i < hops row.now) × (0 < modulus) }
    ensures { Tests result (AgreesHop (InReach reach) row.now modulus o.0 i) }
{
    in_reach(reach, row.node(i), row.node(i + 1)) && o.0 % modulus == row.offset(i).0 % modulus
}

// Whether the row has a modulus, and some hop of it does.
pub fn row_agrees(row: &Row<'_>, modulus: u16, reach: Reach, o: Slot) -> bool
    requires { SmallRow row.now }
    ensures { Tests result ((0 < modulus) × AgreesRow (InReach reach) row.now modulus o.0) }
{
    if modulus == 0 {
        return false;
    }
    for i in 0..row.hops() {
        if hop_agrees(row, i, modulus, reach, o) {
            return true;
        }
    }
    false
}

// Whether of the first so many rows one with a modulus has such a hop.
pub fn agrees(
    image: &[u8],
    start: usize,
    rows: usize,
    moduli: &[u16; ROWS],
    reach: Reach,
    o: Slot,
) -> bool
    requires { RowsThere image.now start rows }
    ensures { Tests result (Agrees (InReach reach) image.now start rows moduli.now o.0) }
{
    for (row, modulus) in Rows::new(image, start, rows).zip(moduli) {
        if row_agrees(&row, *modulus, reach, o) {
            return true;
        }
    }
    false
}

// Whether hop i of the route is in reach, and has this offset.
fn route_hop_meets(beside: Placed, i: usize, reach: Reach, o: Slot) -> bool
    requires { (beside.route.hops ≤ most_route_hops) × ((a : ℕ) → a ∈ the_route beside.route → a < 64) × (i < beside.route.hops) }
    ensures { Tests result (MeetsRouteHop (InReach reach) (the_route beside.route) (the_offsets beside) o.0 i) }
{
    let offset = beside.offsets[i];
    let nodes = &beside.route.nodes;
    offset == o && in_reach(reach, nodes[i], nodes[i + 1])
}

// Whether some hop of the route is: with one period for both, hops meet exactly where they have one offset.
pub fn route_meets(beside: Placed, reach: Reach, o: Slot) -> bool
    requires { (beside.route.hops ≤ most_route_hops) × ((a : ℕ) → a ∈ the_route beside.route → a < 64) }
    ensures { Tests result (MeetsRoute (InReach reach) (the_route beside.route) (the_offsets beside) o.0) }
{
    for i in 0..beside.route.hops {
        if route_hop_meets(beside, i, reach, o) {
            return true;
        }
    }
    false
}
