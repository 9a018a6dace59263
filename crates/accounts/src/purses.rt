// What is left of each account of an image, in the order of their list, while rows draw from them one after the other.
ghost use Rattle.std.specs.Prelude.{◌≡◌, [], length};
ghost use Rattle.rules.specs.Book.{LawfulRow};
ghost use Rattle.rules.specs.Image.{accounts_of, site_of};
ghost use Rattle.accounts.specs.Lists.{LeftBy, ListRead, MayDraw, DrawsMore, CanDraw};

use image::Book;
use image::row::Row;

// Before any row draws: what each has bought.
pub fn fill(image: &[u8], book: Book, left: &mut [u32; Book::ACCOUNTS])
    requires { ListRead image.now book × (length left.old ≡ 32) }
    ensures { LeftBy (accounts_of image.now) [] left.new × (length left.new ≡ 32) }
{
    for i in 0..crate::count_of(image, book) {
        left[i] = crate::bought_at(image, book, i);
    }
}

// Whether what is left of its account pays for a row.
pub fn may_draw(image: &[u8], book: Book, row: &Row<'_>, left: &[u32; Book::ACCOUNTS]) -> bool
    requires { ListRead image.now book × LawfulRow (site_of image.now) row.now × (length left.now ≡ 32) }
    ensures { MayDraw (accounts_of image.now) row.now left.now result }
{
    let i = crate::place_of(image, book, row.account()).unwrap();
    crate::row_cost(row) <= left[i]
}

// A row draws from its account, which pays for it.
pub fn draw(image: &[u8], book: Book, row: &Row<'_>, left: &mut [u32; Book::ACCOUNTS])
    requires read { ListRead image.now book × LawfulRow (site_of image.now) row.now }
    requires pays { CanDraw (accounts_of image.now) row.now left.old × (length left.old ≡ 32) }
    ensures { DrawsMore (accounts_of image.now) row.now left.old left.new × (length left.new ≡ 32) }
{
    let i = crate::place_of(image, book, row.account()).unwrap();
    left[i] -= crate::row_cost(row);
}
