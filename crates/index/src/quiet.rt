// Where a hop is looked for: it is quiet where no node in its reach is at work.
ghost use Rattle.std.specs.Prelude.{◌≡◌, ◌<◌};
ghost use Rattle.rules.specs.Words.{Tests};
ghost use Rattle.index.specs.Turns.{InIndex};
ghost use Rattle.index.specs.Marks.{InReach, Finds};

use crate::{FOLD, QUICK, Repeats, WORDS, slots, tens};
use bitset::clash::Reach;
use rules::Slot;

// Whether a node in reach is at work where a hop with a turn in ten tiles is looked for: among these, and in the fold.
pub fn finds_quick(index: &[u64; WORDS], repeats: Repeats, offset: Slot, reach: Reach) -> bool
    requires { InIndex repeats offset.0 × (0 < repeats.few) }
    ensures { Tests result (Finds (InReach reach) index.now repeats offset.0) }
{
    let o = usize::from(offset.0);
    slots::finds(index, repeats.span, repeats.few, QUICK + o, reach)
        || slots::finds(index, repeats.span, repeats.few, FOLD + o, reach)
}

// Whether one is where another hop is looked for, in other places and another number of them: among 100 tiles, and once among ten.
pub fn finds_short(index: &[u64; WORDS], repeats: Repeats, offset: Slot, reach: Reach) -> bool
    requires { InIndex repeats offset.0 × (repeats.few ≡ 0) }
    ensures { Tests result (Finds (InReach reach) index.now repeats offset.0) }
{
    if repeats.turns == 0 {
        return false;
    }
    let o = usize::from(offset.0);
    if slots::finds(index, repeats.span, repeats.turns, o, reach) {
        return true;
    }
    let quick = QUICK + tens::place(offset, repeats.fold);
    slots::finds(index, repeats.span, 1, quick, reach)
}
