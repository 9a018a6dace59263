// The first placing of a route's hops beside the rows of an index, rows that it leaves out, and another route.

#![tactic(auto)]

ghost use Rattle.std.specs.Prelude.{◌*◌, ◌<◌, ◌≤◌};
ghost use Rattle.rules.specs.Words.{Tests};
ghost use Rattle.rules.specs.Tiles.{PlanInRange, Period};
ghost use Rattle.rules.specs.Topology.{most_route_hops};
ghost use Rattle.rules.specs.Records.{the_plan, the_route};
ghost use Rattle.bitset.specs.Rows.{topology};
ghost use Rattle.bitset.specs.clash.Reach.{hop, Clashes, Between};
ghost use Rattle.index.specs.Turns.{RepeatsOf};
ghost use Rattle.index.specs.Marks.{InReach, MeetsIn};
ghost use Rattle.placing.specs.Answers.{the_around, Standing, FreeBy, Searched, Asked, AnswersBy};

pub mod marking;
pub mod plain;

use bitset::clash;
use bitset::clash::Reach;
use index::Repeats;
use rules::{Node, Placed, Plan, Route, Slot, Tile};

// What hops are placed beside: the index of an image's rows, so many of its rows from the start on, which have moduli, and a
// route of the same period with its offsets.
#[derive(Clone, Copy)]
pub struct Around<'a> {
    pub index: &'a [u64; index::WORDS],
    pub image: &'a [u8],
    pub start: usize,
    pub rows: usize,
    pub moduli: &'a [u16; plain::ROWS],
    pub beside: Placed,
}

// Whether a quiet offset takes only data slots, and meets no hop in reach by moduli of rows, or of the route beside.
fn is_free(around: &Around<'_>, plan: Plan, period: Tile, reach: Reach, o: Slot) -> bool
    requires { PlanInRange (the_plan plan) × Period period.0 × (o.0 < period.0 * plan.slots.0) × Standing (the_around around.now)
        × (around.now.beside.route.hops ≤ most_route_hops) }
    ensures { (MeetsIn (InReach reach) plan.slots.0 (the_around around.now).words period.0 o.0 → ⊥)
        → Tests result (FreeBy (InReach reach) (the_plan plan) (the_around around.now) period.0 o.0) }
{
    rules::on_data(plan, period, o)
        && !plain::agrees(
            around.image,
            around.start,
            around.rows,
            around.moduli,
            reach,
            o,
        )
        && !plain::route_meets(around.beside, reach, o)
}

// The least of those offsets from lo on.
fn next_free(
    around: &Around<'_>,
    plan: Plan,
    period: Tile,
    repeats: Repeats,
    reach: Reach,
    lo: Slot,
) -> Option<Slot>
    requires { PlanInRange (the_plan plan) × Period period.0 × RepeatsOf plan.slots.0 period.0 repeats × Standing (the_around around.now)
        × (around.now.beside.route.hops ≤ most_route_hops) }
    ensures { Searched (FreeBy (InReach reach) (the_plan plan) (the_around around.now) period.0) lo.0 (period.0 * plan.slots.0) result }
{
    let mut from = lo;
    // ends with the span or a free offset, whichever of two searches in turn comes to it: no range says so
    loop {
        let o = index::next_quiet(around.index, repeats, from, reach);
        if repeats.span <= o {
            return None;
        }
        if is_free(around, plan, period, reach, o) {
            return Some(o);
        }
        from = Slot(o.0 + 1);
    }
}

// The least offset from lo on that is free for the hop.
fn next_offset(
    around: &Around<'_>,
    plan: Plan,
    hearing: &[u64],
    from: Node,
    to: Node,
    period: Tile,
    repeats: Repeats,
    lo: Slot,
) -> Option<Slot>
    requires { PlanInRange (the_plan plan) × Period period.0 × RepeatsOf plan.slots.0 period.0 repeats × Between (topology hearing.now) (hop from to)
        × Standing (the_around around.now) × (around.now.beside.route.hops ≤ most_route_hops) }
    ensures { Searched (FreeBy (Clashes (topology hearing.now) (hop from to)) (the_plan plan) (the_around around.now) period.0) lo.0
        (period.0 * plan.slots.0) result }
{
    let reach = clash::reach_of(hearing, from, to);
    next_free(around, plan, period, repeats, reach, lo)
}

// The first placing of the route, of the period: an offset for each hop, and zeros after them; or it has none.
pub fn first_placing(
    around: &Around<'_>,
    plan: Plan,
    hearing: &[u64],
    route: Route,
    period: Tile,
) -> Option<[Slot; rules::ROUTE_HOPS]>
    requires { Asked (the_plan plan) (topology hearing.now) (the_route route) period.0 × (route.hops ≤ most_route_hops)
        × Standing (the_around around.now) × (around.now.beside.route.hops ≤ most_route_hops) }
    ensures { AnswersBy (the_plan plan) (topology hearing.now) (the_around around.now) period.0 (the_route route) result }
{
    let repeats = index::repeats_of(plan.slots, period);
    let mut offsets = [Slot(0); rules::ROUTE_HOPS];
    let mut lo = Slot(0);
    for h in 0..route.hops {
        let from = route.nodes[h];
        let to = route.nodes[h + 1];
        let o = next_offset(around, plan, hearing, from, to, period, repeats, lo)?;
        offsets[h] = o;
        lo = Slot(o.0 + 1);
    }
    Some(offsets)
}
