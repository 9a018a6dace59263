// What a frame asks for.
ghost use Rattle.frames.specs.Asking.{Decodes};

// The calls; the first byte of a frame has the number of one.
#[derive(Clone, Copy, PartialEq, Eq)]
pub enum Call {
    // Makes a book without streams.
    NewBook,
    // Says whether a book is lawful.
    Check,
    // Writes a book in the newest version.
    Rewrite,
    // Opens a stream.
    OpenStream,
    // Closes one.
    CloseStream,
    // Writes a part of a node's slot table.
    Expand,
    // Gives a node's balance.
    Balance,
    // Lists the routes between two nodes.
    Routes,
    // Posts a list of requests.
    Post,
    // Says whether a book keeps to a set.
    Keeps,
    // Buys hop uses for an account.
    Purchase,
    // Salvages a damaged book.
    Salvage,
    // Finds the book of tables made elsewhere.
    BookOf,
    // Gives the number of a node's links.
    Links,
}

// A number that no call has.
#[derive(Clone, Copy, PartialEq, Eq)]
pub struct NoCall(pub u8);

impl TryFrom<u8> for Call {
    type Error = NoCall;

    ghost try_from_gives = { Decodes };

    fn try_from(number: u8) -> Result<Self, NoCall> {
        match number {
            0 => Ok(Call::NewBook),
            1 => Ok(Call::Check),
            2 => Ok(Call::Rewrite),
            3 => Ok(Call::OpenStream),
            4 => Ok(Call::CloseStream),
            5 => Ok(Call::Expand),
            6 => Ok(Call::Balance),
            7 => Ok(Call::Routes),
            8 => Ok(Call::Post),
            9 => Ok(Call::Keeps),
            10 => Ok(Call::Purchase),
            11 => Ok(Call::Salvage),
            12 => Ok(Call::BookOf),
            13 => Ok(Call::Links),
            _ => Err(NoCall(number)),
        }
    }
}
