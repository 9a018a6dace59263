// A purchase on the image of a lawful book: an account has bought so much more.
ghost use Rattle.std.specs.Prelude.{◌≡◌, ◌+◌, ◌≤◌, length};
ghost use Rattle.std.specs.Option.{SomeIff};
ghost use Rattle.rules.specs.Words.{FourBytes};
ghost use Rattle.rules.specs.Image.{word32};
ghost use Rattle.rules.specs.Said.{said, written};
ghost use Rattle.rules.proofs.Reading.{LawfulImage};
ghost use Rattle.writer.specs.Over.{over};
ghost use Rattle.accounts.specs.purchasing.Buying.{Buys};

use image::Book;
use rules::refusals::Refusal;
use writer::transcribing;

// The sum of two numbers, if it is one of 32 bits.
fn sum(x: u32, y: u32) -> Option<u32>
    ensures { SomeIff result (FourBytes (x + y)) (x + y) }
{
    x.checked_add(y)
}

// A number in 4 bytes.
fn put_word32(out: &mut [u8], at: usize, x: u32)
    requires { at + 4 ≤ length out.old }
    ensures { out.new ≡ over out.old at (word32 x) }
{
    writer::put_part(&x.to_be_bytes(), out, at);
}

// Writes the image of the book with the account of the number raised by the amount, in the newest version.
pub fn purchase_on(
    image: &[u8],
    account: u16,
    amount: u32,
    out: &mut [u8],
) -> Result<usize, Refusal>
    requires { LawfulImage image.now }
    ensures { Buys image.now account amount out.old (said result) (written result) out.new }
{
    let book = Book::read(image);
    let place = crate::place_of(image, book, account).ok_or(Refusal::NoSuchAccount)?;
    let raised = sum(crate::bought_at(image, book, place), amount).ok_or(Refusal::AccountFull)?;
    let mut work = [0u8; Book::LONGEST];
    let length = transcribing::transcribe(image, &mut work);
    if out.len() < length {
        return Err(Refusal::NoRoom);
    }
    writer::put_part(&work[..length], out, 0);
    put_word32(out, image::HEADER + 1 + image::ACCOUNT * place + 2, raised);
    Ok(length)
}
