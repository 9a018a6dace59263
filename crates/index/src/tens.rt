// The tens of 100 tiles laid over each other, and the whole index, as it is lent.
ghost use Rattle.std.specs.Prelude.{◌≡◌, ◌+◌, ◌*◌, ◌%◌, ◌<◌, ◌≤◌, length};
ghost use Rattle.rules.specs.Tiles.{short_tiles};
ghost use Rattle.index.specs.Areas.{quick_tiles, quick_place, index_length};
ghost use Rattle.index.specs.Folding.{Refolds, TenLent, Lent};

use crate::{FOLD, QUICK, QUICK_TILES, WORDS};
use rules::Slot;

// Where an offset stands when the tens are laid over each other: one in the first ten needs no division.
pub fn place(offset: Slot, fold: Slot) -> usize
    requires { (0 < fold.0) × (fold.0 ≤ quick_tiles * 32) }
    ensures { (result ≡ offset.0 % fold.0) × (result < fold.0) × (result < quick_tiles * 32) }
{
    if offset.0 < fold.0 {
        return usize::from(offset.0);
    }
    usize::from(offset.0 % fold.0)
}

// Works out a slot of the fold from the slots of the tens that are laid over it.
pub fn refold(index: &mut [u64; WORDS], fold: Slot, slot: usize)
    requires { (length index.old ≡ index_length) × (slot < fold.0) × (fold.0 ≤ quick_tiles * 32) }
    ensures { Refolds fold.0 slot index.old index.new }
{
    let mut senders = 0;
    let mut receivers = 0;
    let step = usize::from(fold.0);
    for ten in 0..usize::from(QUICK_TILES) {
        let at = 2 * (slot + ten * step);
        senders = bitset::union(senders, index[at]);
        receivers = bitset::union(receivers, index[at + 1]);
    }
    let to = 2 * (FOLD + slot);
    index[to] = senders;
    index[to + 1] = receivers;
}

// Puts one of the tens, of so many words: what stands among the 100 tiles beside what stands among the ten.
fn lend_ten(index: &[u64], ten: usize, words: usize, out: &mut [u64])
    requires { (length index.now ≡ index_length) × (words ≤ 2 * (quick_tiles * 32)) × (ten + words ≤ 2 * quick_place) × (ten + words ≤ length out.old) }
    ensures { TenLent ten words index.now out.old out.new }
{
    for i in 0..words {
        out[ten + i] = bitset::union(index[ten + i], index[2 * QUICK + i]);
    }
}

// Puts the whole index of tiles of so many slots: two words for each slot of 100 tiles.
pub fn lend(index: &[u64], slots: Slot, out: &mut [u64])
    requires { (length index.now ≡ index_length) × (slots.0 ≤ 32) × (2 * (short_tiles * slots.0) ≤ length out.old) }
    ensures { Lent slots.0 index.now out.old out.new }
{
    let tens = usize::from(QUICK_TILES);
    let words = 2 * (tens * usize::from(slots.0));
    for ten in 0..tens {
        lend_ten(index, ten * words, words, out);
    }
}
