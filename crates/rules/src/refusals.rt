// Why a call, or a request of a list, is refused.
ghost use Rattle.std.specs.Prelude.{◌≡◌};
ghost use Rattle.rules.specs.Said.{number_of, said};

// The refusals, each with its number.
#[derive(Clone, Copy, PartialEq, Eq)]
pub enum Refusal {
    // A stream's id is never 0.
    ZeroId = 1,
    // A stream of this id is in the book already.
    IdTaken = 2,
    // No stream of this id is in the book.
    NoSuchStream = 3,
    // The site has no node of this number.
    NoSuchNode = 4,
    // Source and destination are the same node.
    SameNode = 5,
    // The period is none of the ten.
    NoSuchPeriod = 6,
    // No route exists between these nodes.
    NoRoute = 7,
    // The book is full: 64 routes or 512 hops.
    BookFull = 8,
    // No free slots for this stream.
    NoSlots = 9,
    // A number of the plan, of the head or of the accounts is out of its range.
    OutOfRange = 10,
    // Links or hearing are not sound.
    UnsoundTopology = 11,
    // No room for the answer.
    NoRoom = 12,
    // This is no book: its mark or its version is wrong.
    NoBook = 13,
    // The book is cut short, or not as long as its head says.
    WrongLength = 14,
    // The rows of the book's streams are not lawful.
    UnlawfulRows = 15,
    // Hops of two routes clash and meet in a slot.
    Clash = 16,
    // Every route has over 15 hops.
    TooFar = 17,
    // No second route of at most 6 hops by other relays.
    NoSecondRoute = 18,
    // The tables are not sound.
    UnsoundTables = 19,
    // No lawful book with periods up to 100 expands to these tables.
    NoBookOfTables = 20,
    // The tiles are not in the cycle of 1000, or are none, or over 100 at once.
    NoSuchTiles = 21,
    // The book has no account of this number.
    NoSuchAccount = 22,
    // Not enough is left on the account.
    NotEnoughLeft = 23,
    // What the account has bought would pass 32 bits.
    AccountFull = 24,
    // The set names a node that the site has not.
    NoSuchMember = 25,
    // A list has at most 64 requests.
    TooManyRequests = 26,
}

impl Refusal {
    // Its number: 1 to 26.
    pub fn number(self) -> u8
        ensures { result ≡ number_of self }
    {
        self as u8
    }
}

// The number that an answer says: 0 where it is done.
pub fn said<T: Copy>(answer: Result<T, Refusal>) -> u8
    ensures { result ≡ said answer }
{
    match answer {
        Ok(_) => 0,
        Err(refusal) => refusal.number(),
    }
}
