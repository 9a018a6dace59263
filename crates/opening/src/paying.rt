// What an open draws from its account.
ghost use Rattle.std.specs.Prelude.{◌≡◌, ◌*◌, ◌≤◌};
ghost use Rattle.rules.specs.Words.{Tests};
ghost use Rattle.rules.specs.Tiles.{Period, repeats};
ghost use Rattle.rules.specs.Book.{KnownAccount};
ghost use Rattle.rules.specs.Image.{accounts_of};
ghost use Rattle.rules.proofs.Reading.{LawfulImage};
ghost use Rattle.image.specs.Header.{HeaderOf};
ghost use Rattle.accounts.specs.Lists.{Pays};

use image::Book;
use rules::Tile;

// So many hops of a period, as often as they come in a cycle.
fn cost(hops: usize, period: Tile) -> u32
    requires { (hops ≤ 30) × Period period.0 }
    ensures { (result ≡ hops * repeats period.0) × (result ≤ 30000) }
{
    hops as u32 * u32::from(rules::repeats_of(period))
}

// Whether what is left of the account of the number pays for so many hops of a period.
pub fn is_paid(image: &[u8], book: Book, account: u16, period: Tile, hops: usize) -> bool
    requires { LawfulImage image.now × HeaderOf image.now book × KnownAccount (accounts_of image.now) account × Period period.0 × (hops ≤ 30) }
    ensures { Tests result (Pays image.now account (hops * repeats period.0)) }
{
    accounts::pays(image, book, account, cost(hops, period))
}
