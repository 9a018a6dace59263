// Answers a framed posting: its reply, its output, its records and its index go behind the answers that are held. An error is
// that of a write that failed, and ends the run.
ghost use Rattle.std.specs.Prelude.{◌≡◌, ◌≤◌, OnOk, OnErr};
ghost use Rattle.streams.specs.Streams.{given, Grows};
ghost use Rattle.frames.specs.Lengths.{most_part};

use crate::{Frame, REPLY, WORD, records};
use std::io;
use std::io::Write;
use streams::Sink;

// Answers a posting with an index as other calls, with its records at the end.
fn answer_list<W: Write, const N: usize>(
    sink: &mut Sink<W, N>,
    frame: Frame<'_>,
    index: &mut [u64],
) -> io::Result<()>
    requires { most_part ≤ N }
    ensures grows { OnOk result (Grows (given sink.old.buffer sink.old.held (W.contents sink.old.writer))
        (given sink.new.buffer sink.new.held (W.contents sink.new.writer))) }
    ensures err { OnErr result ((sink.new.buffer ≡ sink.old.buffer) × (sink.new.held ≡ sink.old.held)) }
{
    let room = frame.room();
    let size = REPLY + room + frame.further().len();
    let at = sink.reserve(size)?;
    let whole = &mut sink.as_mut_slice()[at..at + size];
    let (reply, rest) = whole.split_at_mut(REPLY);
    let (out, answered) = rest.split_at_mut(room);
    out.fill(frame.filler());
    crate::put_reply(reply, records::post(frame, index, out, answered));
    Ok(())
}

// Answers a posting, which is lent an index of as many words as it asks for.
pub fn answer<W: Write, const N: usize>(sink: &mut Sink<W, N>, frame: Frame<'_>) -> io::Result<()>
    requires { most_part ≤ N }
    ensures { OnOk result (Grows (given sink.old.buffer sink.old.held (W.contents sink.old.writer))
        (given sink.new.buffer sink.new.held (W.contents sink.new.writer))) }
{
    let mut whole = frame.index();
    let index = &mut whole[..frame.words()];
    answer_list(sink, frame, index)?;
    let size = WORD * index.len();
    let at = sink.reserve(size)?;
    crate::put_index(&mut sink.as_mut_slice()[at..at + size], index);
    Ok(())
}
