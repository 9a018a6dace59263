// Whether a row may stand as the second way of a stream behind its first.
ghost use Rattle.std.specs.Prelude.{ℕ, ◌<◌, ◌≤◌, get_or};
ghost use Rattle.rules.specs.Words.{Tests, ◌∈◌};
ghost use Rattle.rules.specs.Topology.{middles, Beside};
ghost use Rattle.rules.specs.Book.{Pair, hops};
ghost use Rattle.bitset.specs.Sets.{SetOf};
ghost use Rattle.image.specs.Places.{InRange};
ghost use Rattle.rows.specs.Pairs.{SameStream, SameEnds};

use image::row::Row;
use rules::{FIRST_WAY, SHORT_HOPS};

// The nodes between the ends of a row's route.
pub fn middles_of(row: &Row<'_>) -> u64
    requires { (i : ℕ) → 1 ≤ i → i < hops row.now → get_or row.now.route i 0 < 64 }
    ensures { SetOf (λ (a : ℕ). a ∈ middles row.now.route) result }
{
    let mut set: u64 = 0;
    for i in 1..row.hops() {
        set = bitset::insert(set, usize::from(row.node(i).0));
    }
    set
}

// Whether the row before is the first way of a stream with the id, the period and the account of the other.
fn same_stream(before: &Row<'_>, row: &Row<'_>) -> bool
    ensures { Tests result (SameStream before.now row.now) }
{
    before.id() == row.id()
        && before.way() == FIRST_WAY
        && before.account() == row.account()
        && before.period() == row.period()
}

// Whether their routes have the same ends.
fn same_ends(before: &Row<'_>, row: &Row<'_>) -> bool
    ensures { Tests result (SameEnds before.now row.now) }
{
    before.node(0) == row.node(0) && before.node(before.hops()) == row.node(row.hops())
}

// Whether a route between the same ends is beside the one before: short, another one, and without a common middle.
fn is_beside(before: &Row<'_>, row: &Row<'_>) -> bool
    requires { InRange before.now × InRange row.now × SameEnds before.now row.now }
    ensures { Tests result (Beside before.now.route row.now.route) }
{
    row.hops() <= SHORT_HOPS
        && 3 <= row.hops() + before.hops()
        && bitset::intersection(middles_of(before), middles_of(row)) == 0
}

// Whether a row may stand as the second way beside the first that is before it.
pub fn pair_holds(before: &Row<'_>, row: &Row<'_>) -> bool
    requires { InRange before.now × InRange row.now }
    ensures { Tests result (Pair before.now row.now) }
{
    same_stream(before, row) && same_ends(before, row) && is_beside(before, row)
}
