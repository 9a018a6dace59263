// Rows of an image as values: a row where it stands, and rows one after the other.
ghost use Rattle.std.specs.Prelude.{◌≡◌, ◌↔◌, ◌+◌, ◌<◌, ◌≤◌, IsSome, IfSome, All, length, get_or};
ghost use Rattle.rules.specs.Words.{TwoBytes};
ghost use Rattle.rules.specs.Book.{hops, row_offset, LawfulRow};
ghost use Rattle.rules.specs.Image.{site_of};
ghost use Rattle.rules.proofs.Reading.{rows_in, LawfulImage};
ghost use Rattle.image.specs.Places.{row_at, rows_from, hop_bytes, InRange, Whole, WholeRows, RowRead};
ghost use Rattle.image.specs.Header.{HeaderOf};

use crate::Book;
use rules::{Node, Slot, Tile};
use std::marker::Model;

// A whole row of an image: where its nodes stand behind its start, and how many hops it has, are read once.
#[derive(Clone, Drop)]
pub struct Row<'a> {
    image: &'a [u8],
    at: usize,
    nodes: usize,
    hops: usize,
}

impl<'a> Model for Row<'a> {
    ghost use Rattle.rules.specs.Book.{Row as Line};
    ghost use Rattle.image.specs.Places.{row_at, RowRead};

    ghost Value = { Line };

    ghost view = { λ r. row_at r.image.now r.at };

    ghost invariant = { λ r. RowRead r.image.now r.at r.nodes r.hops };
}

impl<'a> Row<'a> {
    // The row that stands at a place.
    pub fn new(image: &'a [u8], at: usize) -> Row<'a>
        requires { Whole image.now at }
        ensures { result ≡ row_at image.now at }
    {
        Row {
            image,
            at,
            nodes: crate::hops_place_in(image) + 1,
            hops: crate::hops_at(image, at),
        }
    }

    // The row that stands at a place, if a whole one does.
    pub fn at(image: &'a [u8], at: usize) -> Option<Row<'a>>
        requires { at ≤ length image.now }
        ensures there { IsSome result ↔ Whole image.now at }
        ensures row { IfSome result (λ r. r ≡ row_at image.now at) }
    {
        crate::is_whole(image, at).then(|| Row::new(image, at))
    }

    // Its id.
    pub fn id(&self) -> u16
        ensures { (result ≡ self.now.id) × TwoBytes result }
    {
        crate::id_at(self.image, self.at)
    }

    // Its way: in a version that holds none it is the first.
    pub fn way(&self) -> u8
        ensures { (result ≡ self.now.way) × (result < 256) }
    {
        crate::way_at(self.image, self.at)
    }

    // Its period.
    pub fn period(&self) -> Tile
        ensures { (result.0 ≡ self.now.period) × TwoBytes result.0 }
    {
        crate::period_at(self.image, self.at)
    }

    // How many hops it has: as many as it has offsets.
    #[tactic(auto, using(crate::proofs::Places::whole_sized))]
    pub fn hops(&self) -> usize
        ensures { (result ≡ hops self.now) × (result < 256) × (length self.now.offsets ≡ result) }
    {
        self.hops
    }

    // Node i of its route.
    pub fn node(&self, i: usize) -> Node
        requires { i ≤ hops self.now }
        ensures { (result.0 ≡ get_or self.now.route i 0) × (result.0 < 256) }
    {
        crate::node_in(self.image, self.at, self.nodes, i)
    }

    // The offset of its hop i.
    pub fn offset(&self, i: usize) -> Slot
        requires { i < hops self.now }
        ensures { (result.0 ≡ row_offset self.now i) × TwoBytes result.0 }
    {
        crate::offset_in(self.image, self.at, self.nodes, self.hops, i)
    }

    // Its bytes from its hop count up to its account: the hop count, the nodes and the offsets.
    pub fn hop_bytes(&self) -> &'a [u8]
        ensures bytes { result.now ≡ hop_bytes self.now }
        ensures sized { (length self.now.route ≡ hops self.now + 1) × (length self.now.offsets ≡ hops self.now) }
    {
        hop_bytes(self.image, self.at, self.nodes, self.hops)
    }

    // The account that it belongs to: in a version that holds none it is account 0.
    pub fn account(&self) -> u16
        ensures { (result ≡ self.now.account) × TwoBytes result }
    {
        if crate::word_at(self.image, 3) < crate::ACCOUNTS {
            return 0;
        }
        crate::word_at(
            self.image,
            self.at + (self.nodes + 1 + crate::HOP * self.hops),
        )
    }
}

// The bytes of the row at a place from its hop count up to its account.
fn hop_bytes(image: &[u8], at: usize, nodes: usize, h: usize) -> &[u8]
    requires { RowRead image.now at nodes h }
    ensures bytes { result.now ≡ hop_bytes (row_at image.now at) }
    ensures sized { (length (row_at image.now at).route ≡ h + 1) × (length (row_at image.now at).offsets ≡ h) }
{
    let start = at + (nodes - 1);
    &image[start..start + (2 + crate::HOP * h)]
}

// Rows of an image, one after the other.
#[derive(Clone, Drop)]
pub struct Rows<'a> {
    image: &'a [u8],
    at: usize,
    left: usize,
}

impl<'a> Model for Rows<'a> {
    ghost use Rattle.std.specs.Prelude.{List};
    ghost use Rattle.rules.specs.Book.{Row as Line};
    ghost use Rattle.image.specs.Places.{rows_from, WholeRows};

    ghost Value = { List Line };

    ghost view = { λ r. rows_from r.image.now r.left r.at };

    ghost invariant = { λ r. WholeRows r.image.now r.left r.at };
}

impl<'a> Rows<'a> {
    // So many rows from a place on.
    pub fn new(image: &'a [u8], at: usize, count: usize) -> Rows<'a>
        requires { WholeRows image.now count at }
        ensures { result ≡ rows_from image.now count at }
    {
        Rows {
            image,
            at,
            left: count,
        }
    }

    // All rows of a lawful image, whose header is this.
    pub fn of(image: &'a [u8], book: Book) -> Rows<'a>
        requires { LawfulImage image.now × HeaderOf image.now book }
        ensures rows { result ≡ rows_in image.now }
        ensures lawful { All (LawfulRow (site_of image.now)) result }
        ensures ranges { All InRange result }
    {
        Rows::new(image, book.rows_start(), book.streams)
    }
}

impl<'a> Iterator for Rows<'a> {
    ghost use Rattle.std.specs.Prelude.{List};
    ghost use Rattle.std.specs.Iterator.{YieldsFirst, item_count};
    ghost use Rattle.rules.specs.Book.{Row as Line};

    type Item = Row<'a>;

    ghost next_gives = { YieldsFirst (λ (rest : List Line). rest) };

    ghost remaining = { item_count (λ (rest : List Line). rest) };

    #[tactic(auto, using(crate::proofs::Walks::whole_behind, crate::proofs::Walks::rows_behind_first))]
    fn next(&mut self) -> Option<Row<'a>> {
        if self.left == 0 {
            return None;
        }
        let row = Row::new(self.image, self.at);
        let behind = crate::next(self.image, self.at);
        self.at = behind;
        self.left -= 1;
        Some(row)
    }
}
