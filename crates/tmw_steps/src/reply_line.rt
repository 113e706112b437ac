ghost use Rattle.std.specs.Prelude.{◌++◌, decimal};
ghost use Rattle.tmw_lines.specs.LineFeeds.{line};
ghost use Rattle.tmw_streams.specs.Transfers.{Puts};
ghost use Rattle.tmw_ring_defs.specs.declared.ring_step.Reply.TheVariants.{Taken};
ghost use Rattle.tmw_steps.specs.ReplyText.{reply_text, counts_text, replies_text};

use tmw_events::{Event, put_event};
use tmw_ring_defs::Reply;
use tmw_streams::{IoFault, Sink, Texts, put_all, put_lines, put_with_number};

/// The texts of replies.
struct ReplyTexts;

impl Texts<Reply> for ReplyTexts {
    ghost text = { reply_text };

    fn put_text<K: Sink>(sink: &mut K, reply: &Reply) -> Result<(), IoFault> {
        put_reply(sink, *reply)
    }
}

/// Writes a line for each reply, and then the line that counts the claimed places, `log`, and the events taken. It
/// takes no memory. After a failed write a beginning of the lines went out, and not all of them.
pub fn put_replies<K: Sink>(
    sink: &mut K,
    replies: &[Reply],
    log: u64,
    taken: u64,
) -> Result<(), IoFault>
    ensures { Puts K.to sink.old (replies_text replies.now log taken) sink.new result }
{
    put_lines::<ReplyTexts, Reply, K>(sink, replies)?;
    put_counts(sink, log, taken)
}

/// Writes the line of the two counts, with its line feed.
fn put_counts<K: Sink>(sink: &mut K, log: u64, taken: u64) -> Result<(), IoFault>
    ensures { Puts K.to sink.old (line (counts_text log taken)) sink.new result }
{
    put_numbers(sink, b"log ", log, b" taken ", taken)?;
    put_all(sink, b"\n")
}

/// Writes the reply's text.
fn put_reply<K: Sink>(sink: &mut K, reply: Reply) -> Result<(), IoFault>
    ensures { Puts K.to sink.old (reply_text reply) sink.new result }
{
    match reply {
        Reply::Saw(front) => put_with_number(sink, b"saw ", front),
        Reply::Cleared => put_all(sink, b"cleared"),
        Reply::Full { front, tail } => put_numbers(sink, b"full ", front, b" ", tail),
        Reply::Spent { tail } => put_with_number(sink, b"spent ", tail),
        Reply::Place(place) => put_with_number(sink, b"place ", place),
        Reply::Filled => put_all(sink, b"filled"),
        Reply::Published(place) => put_with_number(sink, b"published ", place),
        Reply::Ready => put_all(sink, b"ready"),
        Reply::NotReady => put_all(sink, b"not ready"),
        Reply::Word(word) => put_with_number(sink, b"word ", word),
        Reply::Taken(event) => put_taken(sink, event),
        Reply::Stopped => put_all(sink, b"stopped"),
        Reply::NotNow => put_all(sink, b"not now"),
    }
}

/// Writes the text of an event that was taken.
fn put_taken<K: Sink>(sink: &mut K, event: Event) -> Result<(), IoFault>
    ensures { Puts K.to sink.old (reply_text (Taken event)) sink.new result }
{
    put_all(sink, b"event ")?;
    put_event(sink, &event)
}

/// Writes two numbers, each after a text.
fn put_numbers<K: Sink>(
    sink: &mut K,
    before: &[u8],
    first: u64,
    between: &[u8],
    second: u64,
) -> Result<(), IoFault>
    ensures { Puts K.to sink.old ((before.now ++ decimal first) ++ (between.now ++ decimal second))
        sink.new result }
{
    put_with_number(sink, before, first)?;
    put_with_number(sink, between, second)
}
