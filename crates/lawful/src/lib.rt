// Whether an image is that of a lawful book, and if not, which refusal applies first.

#![tactic(auto)]

ghost use Rattle.std.specs.Prelude.{◌≡◌, replicate};
ghost use Rattle.rules.specs.Said.{said};
ghost use Rattle.index.specs.Index.{index_length};
ghost use Rattle.image.proofs.Marks.{Marked};
ghost use Rattle.accounts.specs.Lists.{ListRead};
ghost use Rattle.rows.specs.Frame.{Framed};
ghost use Rattle.lawful.specs.Verdict.{NumberOf, Verdict};

pub mod meeting;

use image::{Book, fields};
use rules::refusals;
use rules::refusals::Refusal;

// Whether the rest of an image is lawful too, whose header is in order: its topologies, its rows and their hops.
fn body_verdict(image: &[u8], book: Book, index: &mut [u64; index::WORDS]) -> Result<(), Refusal>
    requires { Marked image.now × Framed image.now × ListRead image.now book × (index.old ≡ replicate index_length 0) }
    ensures { Verdict image.now (said result) index.new }
{
    let n = book.nodes;
    let linked = topologies::sets(image, book.links_place(), n);
    let heard = topologies::sets(image, book.hearing_place(), n);
    let links = &linked[..n];
    let hearing = &heard[..n];
    if !topologies::soundness::both_sound(links, hearing) {
        return Err(Refusal::UnsoundTopology);
    }
    if !rows::rows_hold(image, book, links) {
        return Err(Refusal::UnlawfulRows);
    }
    if meeting::hops_meet(image, book, hearing, index) {
        return Err(Refusal::Clash);
    }
    index::put_site(links, hearing, index);
    Ok(())
}

// Whether an image is that of a lawful book; where it is, the index, which had no marks, is that of its rows and its site.
pub fn verdict(image: &[u8], index: &mut [u64; index::WORDS]) -> Result<(), Refusal>
    requires { index.old ≡ replicate index_length 0 }
    ensures { Verdict image.now (said result) index.new }
{
    if image.len() < image::HEADER {
        return Err(Refusal::WrongLength);
    }
    if !image::is_marked(image) {
        return Err(Refusal::NoBook);
    }
    let book = Book::read(image);
    if !fields::fields_in_range(image, book) {
        return Err(Refusal::OutOfRange);
    }
    if image.len() < book.links_place() {
        return Err(Refusal::WrongLength);
    }
    if !accounts::list_holds(image, book) {
        return Err(Refusal::OutOfRange);
    }
    if image.len() != book.image_length() {
        return Err(Refusal::WrongLength);
    }
    body_verdict(image, book, index)
}

// The same, with an index of its own.
pub fn check(image: &[u8]) -> Result<(), Refusal>
    ensures { NumberOf image.now (said result) }
{
    let mut index = [0u64; index::WORDS];
    verdict(image, &mut index)
}

// The number that a check of an image gives: 0 where it is lawful.
pub fn number(image: &[u8]) -> u8
    ensures { NumberOf image.now result }
{
    refusals::said(check(image))
}
