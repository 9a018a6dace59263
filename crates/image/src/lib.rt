// An image's bytes: its header, how many accounts follow it, its topology rows, and the rows of its streams, read where they stand.

#![tactic(auto)]

ghost use Rattle.std.specs.Prelude.{◌≡◌, ◌+◌, ◌*◌, ◌<◌, ◌≤◌, length, get_or, take};
ghost use Rattle.rules.specs.Words.{Tests, TwoBytes};
ghost use Rattle.rules.specs.Book.{hops, row_offset};
ghost use Rattle.rules.specs.Image.{header_length, links_start, rows_start, has_wide, period_place, hops_place, row_length, image_length, mark, Version, version_of, account_count_of};
ghost use Rattle.rules.specs.Image.{word_at, word64_at};
ghost use Rattle.image.specs.Places.{hearing_place, row_at, next_at, Whole};
ghost use Rattle.image.specs.Header.{HeaderOf};

pub mod fields;
pub mod row;

use rules::{Node, Plan, Slot, Tile};

// Bytes 0 to 15 are the header.
pub const HEADER: usize = 16;

// The mark.
pub const MARK: [u8; 3] = *b"SLB";

// The newest version, in which new and changed books are written: versions are the format's numbers, and compared in order.
pub const NEWEST: u16 = 5;

// The first version whose rows hold their ways.
const WAYS: u16 = 2;

// The first version that holds who hears whom.
const HEARING: u16 = 3;

// The first version that holds periods in two bytes.
const WIDE: u16 = 4;

// The first version that holds accounts.
const ACCOUNTS: u16 = 5;

// The bytes of an account: its number in 2, and what it has bought in 4.
pub const ACCOUNT: usize = 6;

// The bytes of a topology row,
pub const SET: usize = 8;

// of a hop in a row: a node and an offset,
pub const HOP: usize = 3;

// and of the least row beside its hops.
const LEAST_ROW: usize = 5;

// What an image's header says of its book, and the count behind it of its accounts, in a version that holds them.
#[derive(Clone, Copy)]
pub struct Book {
    pub version: u16,
    pub plan: Plan,
    pub nodes: usize,
    pub streams: usize,
    pub hops: usize,
    pub accounts: u8,
}

// The number in 2 bytes from a place on.
pub fn word_at(image: &[u8], at: usize) -> u16
    requires { at + 2 ≤ length image.now }
    ensures { (result ≡ word_at image.now at) × TwoBytes result }
{
    u16::from_be_bytes([image[at], image[at + 1]])
}

// The number in 8 bytes from a place on.
pub fn word64_at(image: &[u8], at: usize) -> u64
    requires { at + 8 ≤ length image.now }
    ensures { result ≡ word64_at image.now at }
{
    let mut bytes = [0u8; 8];
    bytes.copy_from_slice(&image[at..at + 8]);
    u64::from_be_bytes(bytes)
}

// In a row of a version, the bytes before the period: its id, and its way where the version holds it.
fn period_place(version: u16) -> usize
    ensures { (result ≡ period_place version) × (result ≤ 3) }
{
    if version < WAYS { 2 } else { 3 }
}

// Those before the hop count: the period too, in one byte or two.
fn hops_place(version: u16) -> usize
    ensures { (result ≡ hops_place version) × (result ≤ 5) }
{
    let place = period_place(version);
    if version < WIDE { place + 1 } else { place + 2 }
}

// The bytes of a row of a version beside its hops.
pub fn row_length(version: u16) -> usize
    ensures { (result ≡ row_length version) × (result ≤ 9) }
{
    let place = hops_place(version);
    if version < ACCOUNTS {
        place + 2
    } else {
        place + 4
    }
}

// In a row of the image, the bytes before the period.
fn period_place_in(image: &[u8]) -> usize
    requires { 5 ≤ length image.now }
    ensures { (result ≡ period_place (version_of image.now)) × (result ≤ 3) }
{
    period_place(word_at(image, 3))
}

// In a row of the image, the bytes before the hop count.
pub fn hops_place_in(image: &[u8]) -> usize
    requires { 5 ≤ length image.now }
    ensures { (result ≡ hops_place (version_of image.now)) × (result ≤ 5) }
{
    hops_place(word_at(image, 3))
}

// The bytes of a row of the image beside its hops.
fn row_length_in(image: &[u8]) -> usize
    requires { 5 ≤ length image.now }
    ensures { (result ≡ row_length (version_of image.now)) × (result ≤ 9) }
{
    row_length(word_at(image, 3))
}

// Whether the image holds its periods in two bytes.
pub fn is_wide(image: &[u8]) -> bool
    requires { 5 ≤ length image.now }
    ensures { result ≡ has_wide (version_of image.now) }
{
    WIDE <= word_at(image, 3)
}

// How many accounts the image says right behind its header, and 0 where it ends there.
fn account_count(image: &[u8]) -> u8
    ensures { result ≡ account_count_of image.now }
{
    if image.len() <= HEADER {
        0
    } else {
        image[HEADER]
    }
}

impl Book {
    // A book has at most 64 streams,
    pub const STREAMS: usize = 64;

    // 512 hops,
    pub const HOPS: usize = 512;

    // 15 hops a route,
    pub const ROUTE_HOPS: usize = rules::ROUTE_HOPS;

    // and 32 accounts.
    pub const ACCOUNTS: usize = 32;

    // Its longest image in the newest version.
    pub const LONGEST: usize = 3345;

    // What the header of an image says, and the count behind it.
    pub fn read(image: &[u8]) -> Book
        requires { header_length ≤ length image.now }
        ensures { HeaderOf image.now result }
    {
        let version = word_at(image, 3);
        let plan = Plan {
            slots: Slot(u16::from(image[5])),
            tiles: Tile(u16::from(image[6])),
            kinds: word_at(image, 7),
            down: Slot(u16::from(image[9])),
            up: Slot(u16::from(image[10])),
        };
        Book {
            version,
            plan,
            nodes: usize::from(image[11]),
            streams: usize::from(image[12]),
            hops: usize::from(word_at(image, 13)),
            accounts: account_count(image),
        }
    }

    // Whether its image holds its periods in two bytes.
    pub fn is_wide(self) -> bool
        ensures { result ≡ has_wide self.version }
    {
        WIDE <= self.version
    }

    // Where its links stand: behind the accounts, in a version that holds them.
    pub fn links_place(self) -> usize
        ensures { result ≡ links_start self.version self.accounts }
    {
        if self.version < ACCOUNTS {
            HEADER
        } else {
            HEADER + 1 + ACCOUNT * usize::from(self.accounts)
        }
    }

    // Where its hearing stands: in a version that holds none, where the links do.
    pub fn hearing_place(self) -> usize
        requires { self.nodes < 256 }
        ensures { result ≡ hearing_place self.version self.accounts self.nodes }
    {
        let links = self.links_place();
        if self.version < HEARING {
            links
        } else {
            links + SET * self.nodes
        }
    }

    // Where the rows of its streams start: behind the hearing.
    pub fn rows_start(self) -> usize
        requires { self.nodes < 256 }
        ensures { result ≡ rows_start self.version self.accounts self.nodes }
    {
        self.hearing_place() + SET * self.nodes
    }

    // The length of its image.
    pub fn image_length(self) -> usize
        requires { (self.nodes < 256) × (self.streams < 256) × TwoBytes self.hops }
        ensures { result ≡ image_length self.version self.accounts self.nodes self.streams self.hops }
    {
        self.rows_start() + row_length(self.version) * self.streams + HOP * self.hops
    }
}

// Whether there is such a version.
fn is_version(version: u16) -> bool
    ensures { Tests result (Version version) }
{
    1 <= version && version <= NEWEST
}

// Whether the image starts with the mark and a version that there is.
pub fn is_marked(image: &[u8]) -> bool
    requires { header_length ≤ length image.now }
    ensures { Tests result ((take 3 image.now ≡ mark) × Version (version_of image.now)) }
{
    image.starts_with(&MARK) && is_version(word_at(image, 3))
}

// Whether a whole row, as long as it says, is at the place.
pub fn is_whole(image: &[u8], at: usize) -> bool
    requires { at ≤ length image.now }
    ensures { Tests result (Whole image.now at) }
{
    let left = image.len() - at;
    if left < LEAST_ROW {
        return false;
    }
    let beside = row_length_in(image);
    if left < beside {
        return false;
    }
    beside + HOP * usize::from(image[at + hops_place_in(image)]) <= left
}

// The row's id.
pub fn id_at(image: &[u8], at: usize) -> u16
    requires { Whole image.now at }
    ensures { (result ≡ (row_at image.now at).id) × TwoBytes result }
{
    word_at(image, at)
}

// Its way: in a version that holds none it is the first.
pub fn way_at(image: &[u8], at: usize) -> u8
    requires { Whole image.now at }
    ensures { (result ≡ (row_at image.now at).way) × (result < 256) }
{
    if word_at(image, 3) < WAYS {
        1
    } else {
        image[at + 2]
    }
}

// Its period.
pub fn period_at(image: &[u8], at: usize) -> Tile
    requires { Whole image.now at }
    ensures { (result.0 ≡ (row_at image.now at).period) × TwoBytes result.0 }
{
    let place = at + period_place_in(image);
    if is_wide(image) {
        Tile(word_at(image, place))
    } else {
        Tile(u16::from(image[place]))
    }
}

// How many hops it has.
pub fn hops_at(image: &[u8], at: usize) -> usize
    requires { Whole image.now at }
    ensures { (result ≡ hops (row_at image.now at)) × (result < 256) }
{
    usize::from(image[at + hops_place_in(image)])
}

// Node i of its route, whose nodes stand so many bytes behind the row's start: who reads many hops reads the layout once.
pub fn node_in(image: &[u8], at: usize, nodes: usize, i: usize) -> Node
    requires { Whole image.now at × (nodes ≡ hops_place (version_of image.now) + 1) × (i ≤ hops (row_at image.now at)) }
    ensures { (result.0 ≡ get_or (row_at image.now at).route i 0) × (result.0 < 256) }
{
    Node(image[at + nodes + i])
}

// The offset of hop i of its h hops: the offsets stand behind the nodes.
pub fn offset_in(image: &[u8], at: usize, nodes: usize, h: usize, i: usize) -> Slot
    requires { Whole image.now at × (nodes ≡ hops_place (version_of image.now) + 1) × (h ≡ hops (row_at image.now at)) × (i < h) }
    ensures { (result.0 ≡ row_offset (row_at image.now at) i) × TwoBytes result.0 }
{
    Slot(word_at(image, at + (nodes + 1) + h + 2 * i))
}

// The place after it.
pub fn next(image: &[u8], at: usize) -> usize
    requires { Whole image.now at }
    ensures { (result ≡ next_at image.now at) × (result ≤ length image.now) }
{
    let beside = row_length_in(image);
    at + (beside + HOP * usize::from(image[at + hops_place_in(image)]))
}
