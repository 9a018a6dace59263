// The index of slots: for each slot of the first 100 tiles the set of nodes that send there, and of those that receive, in
// streams of periods up to 100. Those of periods up to ten tiles stand in ten tiles, the others in 100, and in a fold of their tens.

#![tactic(auto)]

pub mod quiet;
pub mod slots;
pub mod tens;

ghost use Rattle.std.specs.Prelude.{◌≡◌, false, ℕ, ◌+◌, ◌*◌, ◌<◌, ◌≤◌, length, get_or, take, drop};
ghost use Rattle.std.proofs.Math.Seq.{paste};
ghost use Rattle.rules.specs.Words.{Tests};
ghost use Rattle.rules.specs.Tiles.{Period, short_tiles};
ghost use Rattle.bitset.specs.clash.Reach.{End, node_at, hop};
ghost use Rattle.index.specs.Areas.{slow_place, links_behind, hearing_behind, index_length};
ghost use Rattle.index.specs.Turns.{RepeatsOf, TakesIn, InIndex, SpanInIndex};
ghost use Rattle.index.specs.Marks.{Adds, Notes, InReach, Finds, FirstQuiet};
ghost use Rattle.index.specs.Folding.{Removes};
ghost use Rattle.index.specs.Index.{SitePut};

use bitset::clash::Reach;
use rules::{Node, Slot, Tile};

// A period up to ten tiles comes round in ten.
const QUICK_TILES: u16 = 10;

// Behind the slots of 100 tiles of 32 slots are those of ten tiles, for periods up to ten,
const QUICK: usize = 3200;

// and then those of ten tiles, for the tens of the 100 laid over each other.
const FOLD: usize = 3520;

// Behind the slots stands a word that is 0 only where no period is over 100.
const SLOW: usize = 7680;

// Behind it stand the links of a site, a word for each node,
const LINKS: usize = 7681;

// and its hearing.
const HEARING: usize = 7745;

// Two words for each slot, and all that.
pub const WORDS: usize = 7809;

// How a period repeats: the slots from a turn to the next, how many turns 100 tiles have and how few ten have, and the slots of ten.
#[derive(Clone, Copy)]
pub struct Repeats {
    pub span: Slot,
    pub turns: u16,
    pub few: u16,
    pub fold: Slot,
}

// How many words an index has that is lent for tiles of so many slots: two for each slot of 100 tiles.
pub fn words_for(slots: Slot) -> usize
    requires { slots.0 ≤ 32 }
    ensures { result ≡ 2 * (short_tiles * slots.0) }
{
    2 * (usize::from(rules::SHORT) * usize::from(slots.0))
}

// How a period repeats: one over 100 has no turn, and is neither marked nor found, and one over ten has none in ten tiles.
pub fn repeats_of(slots: Slot, period: Tile) -> Repeats
    requires { (slots.0 ≤ 32) × Period period.0 }
    ensures { RepeatsOf slots.0 period.0 result }
{
    Repeats {
        span: rules::span(slots, period),
        turns: rules::SHORT / period.0,
        few: QUICK_TILES / period.0,
        fold: Slot(QUICK_TILES * slots.0),
    }
}

// Notes the period of a row.
pub fn note(index: &mut [u64; WORDS], period: Tile)
    requires { length index.old ≡ index_length }
    ensures { Notes period.0 index.old index.new }
{
    if rules::SHORT < period.0 {
        index[SLOW] = 1;
    }
}

// Whether a period over 100 was noted.
pub fn has_slow(index: &[u64; WORDS]) -> bool
    ensures { result ≡ false → get_or index.now slow_place 0 ≡ 0 }
{
    index[SLOW] != 0
}

// Puts words into others, from a place on.
pub fn put_words(words: &[u64], out: &mut [u64], at: usize)
    requires { at + length words.now ≤ length out.old }
    ensures { out.new ≡ paste out.old at words.now (length words.now) }
{
    out[at..at + words.len()].copy_from_slice(words);
}

// Puts the links and the hearing of a site behind an index.
pub fn put_site(links: &[u64], hearing: &[u64], index: &mut [u64; WORDS])
    requires { (length links.now ≤ 64) × (length hearing.now ≤ 64) × (length index.old ≡ index_length) }
    ensures { SitePut links.now hearing.now index.old index.new }
{
    put_words(hearing, index, HEARING);
    put_words(links, index, LINKS);
}

// The links of the site, which has so many nodes.
pub fn links(index: &[u64; WORDS], nodes: usize) -> &[u64]
    requires { nodes ≤ 64 }
    ensures { result.now ≡ take nodes (drop links_behind index.now) }
{
    &index[LINKS..LINKS + nodes]
}

// Its hearing.
pub fn hearing(index: &[u64; WORDS], nodes: usize) -> &[u64]
    requires { nodes ≤ 64 }
    ensures { result.now ≡ take nodes (drop hearing_behind index.now) }
{
    &index[HEARING..HEARING + nodes]
}

// Marks a hop with these repeats and this offset.
pub fn put(index: &mut [u64; WORDS], repeats: Repeats, offset: Slot, from: Node, to: Node)
    requires { (length index.old ≡ index_length) × InIndex repeats offset.0 × (from.0 < 64) × (to.0 < 64) }
    ensures { Adds (λ (end : End) (slot node : ℕ). TakesIn repeats offset.0 slot × (node ≡ node_at end (hop from to))) index.old index.new }
{
    let o = usize::from(offset.0);
    if 0 < repeats.few {
        slots::put(index, repeats.span, repeats.few, QUICK + o, from, to);
        return;
    }
    if 0 < repeats.turns {
        let folded = FOLD + tens::place(offset, repeats.fold);
        slots::put(index, repeats.span, repeats.turns, o, from, to);
        slots::put(index, repeats.span, 1, folded, from, to);
    }
}

// Whether a node in reach is at work in a slot where such a hop is looked for.
pub fn finds(index: &[u64; WORDS], repeats: Repeats, offset: Slot, reach: Reach) -> bool
    requires { InIndex repeats offset.0 }
    ensures { Tests result (Finds (InReach reach) index.now repeats offset.0) }
{
    if 0 < repeats.few {
        return quiet::finds_quick(index, repeats, offset, reach);
    }
    quiet::finds_short(index, repeats, offset, reach)
}

// The first offset from lo on, within the period's span, at which none is; or one behind the span where there is none.
pub fn next_quiet(index: &[u64; WORDS], repeats: Repeats, lo: Slot, reach: Reach) -> Slot
    requires { SpanInIndex repeats }
    ensures { FirstQuiet (InReach reach) index.now repeats lo.0 result.0 }
{
    for o in lo.0..repeats.span.0 {
        if !finds(index, repeats, Slot(o), reach) {
            return Slot(o);
        }
    }
    Slot(lo.0.max(repeats.span.0))
}

// Takes the ends of a marked hop out of every slot where it is marked.
pub fn unmark(index: &mut [u64; WORDS], repeats: Repeats, offset: Slot, from: Node, to: Node)
    requires { (length index.old ≡ index_length) × InIndex repeats offset.0 × (from.0 < 64) × (to.0 < 64) }
    ensures { Removes repeats.fold.0 (λ (end : End) (slot node : ℕ). TakesIn repeats offset.0 slot × (node ≡ node_at end (hop from to)))
        index.old index.new }
{
    let o = usize::from(offset.0);
    if 0 < repeats.few {
        slots::clear(index, repeats.span, repeats.few, QUICK + o, from, to);
        return;
    }
    if 0 < repeats.turns {
        let slot = tens::place(offset, repeats.fold);
        slots::clear(index, repeats.span, repeats.turns, o, from, to);
        tens::refold(index, repeats.fold, slot);
    }
}
