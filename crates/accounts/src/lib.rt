// The accounts of an image: whether their list is in its range, whether one has a number, and what rows draw from it.

#![tactic(auto)]

ghost use Rattle.std.specs.Prelude.{◌≡◌, true, ◌+◌, ◌*◌, ◌<◌, ◌≤◌, length, get_or};
ghost use Rattle.rules.specs.Words.{Tests};
ghost use Rattle.rules.specs.Tiles.{Period};
ghost use Rattle.rules.specs.Topology.{most_route_hops};
ghost use Rattle.rules.specs.Book.{AccountsInRange, KnownAccount, hops, draws, drawn};
ghost use Rattle.rules.specs.Image.{has_accounts, word32_at, accounts_at, accounts_of, links_place};
ghost use Rattle.rules.specs.Calls.{AccountsGiven};
ghost use Rattle.rules.proofs.Reading.{rows_in, LawfulImage};
ghost use Rattle.image.specs.Places.{InRange};
ghost use Rattle.image.specs.Header.{HeaderOf};
ghost use Rattle.accounts.specs.Lists.{numbers, boughts, PlaceOf, RisesFrom, ListRead, HoldMost, HasBought, draws_from, Pays};

use image::Book;
use image::row::{Row, Rows};

pub mod purchasing;
pub mod purses;

// What the rows of a book draw at most: 64 of them, of 15 hops that come 1,000 times in a cycle,
const MOST_DRAWN: u32 = 960000;

// and what an open may draw more, on two routes.
const MOST_COST: u32 = 30000;

// Whether the image of the book holds an account list: then its links do not stand right behind the header.
fn has_list(book: Book) -> bool
    ensures { result ≡ has_accounts book.version }
{
    image::HEADER < book.links_place()
}

// Whether the numbers of so many accounts rise, from a place on.
fn numbers_rise(bytes: &[u8], start: usize, count: usize) -> bool
    requires { start + 6 * count ≤ length bytes.now }
    ensures { Tests result (RisesFrom 0 (accounts_at bytes.now start count)) }
{
    let mut least: usize = 0;
    for i in 0..count {
        let number = usize::from(image::word_at(bytes, start + image::ACCOUNT * i));
        if number < least {
            return false;
        }
        least = number + 1;
    }
    true
}

// Whether so many accounts from a place on are as many as a book may have, and in their ranges.
fn in_range(bytes: &[u8], start: usize, count: usize) -> bool
    requires { start + 6 * count ≤ length bytes.now }
    ensures { Tests result (AccountsInRange (accounts_at bytes.now start count)) }
{
    (1..=Book::ACCOUNTS).contains(&count) && numbers_rise(bytes, start, count)
}

// Whether the accounts given with a new book, without their count, are whole and in their ranges.
pub fn given_hold(accounts: &[u8]) -> bool
    ensures { Tests result (AccountsGiven accounts.now) }
{
    let count = accounts.len() / image::ACCOUNT;
    accounts.len() == image::ACCOUNT * count && in_range(accounts, 0, count)
}

// Whether the account list of an image that does not end inside it is in its range.
pub fn list_holds(image: &[u8], book: Book) -> bool
    requires { HeaderOf image.now book × (links_place image.now ≤ length image.now) }
    ensures { Tests result (AccountsInRange (accounts_of image.now)) }
{
    !has_list(book) || in_range(image, image::HEADER + 1, usize::from(book.accounts))
}

// How many accounts the image has: in a version that holds no list, the one of older books.
fn count_of(image: &[u8], book: Book) -> usize
    requires { HeaderOf image.now book }
    ensures { (result ≡ length (accounts_of image.now)) × (result ≤ 255) }
{
    if has_list(book) {
        usize::from(book.accounts)
    } else {
        1
    }
}

// The number of account i.
fn number_at(image: &[u8], book: Book, i: usize) -> u16
    requires { HeaderOf image.now book × (links_place image.now ≤ length image.now) × (i < length (accounts_of image.now)) }
    ensures { result ≡ get_or (numbers (accounts_of image.now)) i 0 }
{
    if !has_list(book) {
        return 0;
    }
    image::word_at(image, image::HEADER + 1 + image::ACCOUNT * i)
}

// The place of the account of the number in the list, if there is one.
pub fn place_of(image: &[u8], book: Book, account: u16) -> Option<usize>
    requires { HeaderOf image.now book × (links_place image.now ≤ length image.now) }
    ensures { PlaceOf (accounts_of image.now) account result }
{
    (0..count_of(image, book)).find(|i| number_at(image, book, *i) == account)
}

// Whether an account of the image has the number: in a version that holds none there is account 0.
pub fn is_known(image: &[u8], book: Book, account: u16) -> bool
    requires { HeaderOf image.now book × (links_place image.now ≤ length image.now) }
    ensures { Tests result (KnownAccount (accounts_of image.now) account) }
{
    place_of(image, book, account).is_some()
}

// What a row draws: its hops, as often as they come in a cycle.
fn row_cost(row: &Row<'_>) -> u32
    requires { Period row.now.period × (hops row.now ≤ most_route_hops) }
    ensures { (result ≡ draws row.now) × (result ≤ 15000) }
{
    let turns = rules::repeats_of(row.period());
    row.hops() as u32 * u32::from(turns)
}

// What it draws from the account of the number.
fn row_draws(row: &Row<'_>, account: u16) -> u32
    requires { InRange row.now }
    ensures { (result ≡ draws_from account row.now) × (result ≤ 15000) }
{
    if row.account() == account {
        row_cost(row)
    } else {
        0
    }
}

// What the rows of a lawful image draw from the account of the number.
pub fn drawn_from(image: &[u8], book: Book, account: u16) -> u32
    requires { LawfulImage image.now × HeaderOf image.now book }
    ensures { (result ≡ drawn account (rows_in image.now)) × (result ≤ 960000) }
{
    let mut sum: u32 = 0;
    for row in Rows::of(image, book) {
        sum += row_draws(&row, account);
    }
    sum
}

// The number in 4 bytes from a place on.
fn word32_at(bytes: &[u8], at: usize) -> u32
    requires { at + 4 ≤ length bytes.now }
    ensures { result ≡ word32_at bytes.now at }
{
    u32::from_be_bytes([bytes[at], bytes[at + 1], bytes[at + 2], bytes[at + 3]])
}

// What account i has bought: in a version that holds no list, the largest number of 32 bits.
fn bought_at(image: &[u8], book: Book, i: usize) -> u32
    requires { HeaderOf image.now book × (links_place image.now ≤ length image.now) × (i < length (accounts_of image.now)) }
    ensures { result ≡ get_or (boughts (accounts_of image.now)) i 0 }
{
    if !has_list(book) {
        return u32::MAX;
    }
    word32_at(image, image::HEADER + 1 + image::ACCOUNT * i + 2)
}

// What the account of the number has bought, and 0 where there is none.
pub fn bought_of(image: &[u8], book: Book, account: u16) -> u32
    requires { ListRead image.now book }
    ensures { HasBought (accounts_of image.now) account result }
{
    place_of(image, book, account).map_or(0, |i| bought_at(image, book, i))
}

// Whether every account has bought what the rows of a book draw at most: then none can be overdrawn.
pub fn all_hold_most(image: &[u8], book: Book) -> bool
    requires { ListRead image.now book }
    ensures { result ≡ true → HoldMost (accounts_of image.now) }
{
    (0..count_of(image, book)).all(|i| MOST_DRAWN <= bought_at(image, book, i))
}

// Whether what is left of the account of the number pays for so many hop uses more. One that has bought enough for all rows
// and these needs no sum.
pub fn pays(image: &[u8], book: Book, account: u16, cost: u32) -> bool
    requires { LawfulImage image.now × HeaderOf image.now book × KnownAccount (accounts_of image.now) account × (cost ≤ 30000) }
    ensures { Tests result (Pays image.now account cost) }
{
    let bought = bought_of(image, book, account);
    if MOST_DRAWN + MOST_COST <= bought {
        return true;
    }
    drawn_from(image, book, account) + cost <= bought
}
