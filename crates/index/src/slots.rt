// A hop in the slots of its turns, from a slot of the index on.
ghost use Rattle.std.specs.Prelude.{◌≡◌, ℕ, ◌<◌, length};
ghost use Rattle.rules.specs.Words.{Tests};
ghost use Rattle.bitset.specs.Sets.{SetOf};
ghost use Rattle.bitset.specs.clash.Reach.{End, node_at, hop};
ghost use Rattle.index.specs.Areas.{index_slots, index_length};
ghost use Rattle.index.specs.Turns.{TakesFirst, InTurns};
ghost use Rattle.index.specs.Marks.{Changed, Adds, Clears, Busy, FindsFirst, Common, InReach};

use crate::WORDS;
use bitset::clash::Reach;
use rules::{Node, Slot};

// Changes the words of the slots of so many turns, each by the node at its end of the hop.
fn change<F: Fn(u64, usize) -> u64>(
    index: &mut [u64; WORDS],
    span: Slot,
    turns: u16,
    start: usize,
    from: Node,
    to: Node,
    f: F,
)
    requires turns { InTurns span.0 start turns }
    requires callable { (word node : ℕ) → node < 64 → F.pre f word node }
    requires nodes { (from.0 < 64) × (to.0 < 64) }
    ensures { Changed (F.post f) (hop from to) (TakesFirst span.0 start turns) index.old index.new }
{
    let i = usize::from(from.0);
    let j = usize::from(to.0);
    let step = usize::from(span.0);
    for turn in 0..usize::from(turns) {
        let at = 2 * (start + turn * step);
        index[at] = f(index[at], i);
        index[at + 1] = f(index[at + 1], j);
    }
}

// Puts the ends of the hop into the slots of so many turns.
pub fn put(index: &mut [u64; WORDS], span: Slot, turns: u16, start: usize, from: Node, to: Node)
    requires { (length index.old ≡ index_length) × InTurns span.0 start turns × (from.0 < 64) × (to.0 < 64) }
    ensures { Adds (λ (end : End) (slot node : ℕ). TakesFirst span.0 start turns slot × (node ≡ node_at end (hop from to))) index.old index.new }
{
    change(index, span, turns, start, from, to, bitset::insert);
}

// Takes the ends of the hop out of these slots.
pub fn clear(index: &mut [u64; WORDS], span: Slot, turns: u16, start: usize, from: Node, to: Node)
    requires { (length index.old ≡ index_length) × InTurns span.0 start turns × (from.0 < 64) × (to.0 < 64) }
    ensures { Clears (λ (end : End) (slot node : ℕ). TakesFirst span.0 start turns slot × (node ≡ node_at end (hop from to))) index.old index.new }
{
    change(index, span, turns, start, from, to, bitset::remove);
}

// Which of the nodes that send and of those that receive are in reach.
fn in_reach(senders: u64, receivers: u64, reach: Reach) -> u64
    ensures { SetOf (Common senders receivers reach) result }
{
    bitset::union(
        bitset::intersection(senders, reach.senders),
        bitset::intersection(receivers, reach.receivers),
    )
}

// Whether a node in reach is at work in the slot.
fn is_busy(index: &[u64; WORDS], slot: usize, reach: Reach) -> bool
    requires { slot < index_slots }
    ensures { Tests result (Busy (InReach reach) index.now slot) }
{
    let at = 2 * slot;
    in_reach(index[at], index[at + 1], reach) != 0
}

// Whether one is in one of these slots.
pub fn finds(index: &[u64; WORDS], span: Slot, turns: u16, start: usize, reach: Reach) -> bool
    requires { InTurns span.0 start turns }
    ensures { Tests result (FindsFirst (InReach reach) index.now span.0 start turns) }
{
    let step = usize::from(span.0);
    for turn in 0..usize::from(turns) {
        if is_busy(index, start + turn * step, reach) {
            return true;
        }
    }
    false
}
