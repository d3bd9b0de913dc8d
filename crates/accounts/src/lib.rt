// The lines that `replay` prints of a lookup: docs/REPLAY.md, "What is printed".
#![tactic(auto)]

ghost use Rattle.lines.specs.Writers.{SameRoom};

use lines::Writer;
use lookups::{End, Key, Lookup, Question, Stage};
use routing::Redirect;
use tellings::put;

#[tactic(auto, using(lines::proofs::Writers::same_room))]
fn put_key(out: &mut Writer, key: Key)
    ensures { SameRoom out.old out.new }
{
    let bytes = key.bytes;
    out.put_text(lookups::part(&bytes, key.length));
}

// How a lookup ends. A refusal is told by its number and name.
fn put_end(out: &mut Writer, end: End)
    ensures { SameRoom out.old out.new }
{
    match end {
        End::Served(node) => put(out, "served by node %", &[u64::from(node)]),
        End::Bad => put(
            out,
            "bad, a reply named another slot or no roster node",
            &[],
        ),
        End::Down => put(out, "down, nobody owns the slot", &[]),
        End::Declined(number) => {
            put(out, "refused by the node asked, ", &[]);
            tellings::put_refusal(out, number);
        }
        End::TooMany => put(out, "too many redirections", &[]),
        End::Stale => put(out, "stale, the MOVED is older than the cached entry", &[]),
        End::Refused(number) => tellings::put_refusal(out, number),
    }
    put(out, "\n", &[]);
}

// ---- a lookup's lines

// Whose lookup it is, and of which key; or why it does not start.
pub fn put_start(out: &mut Writer, count: u64, lookup: Lookup)
    ensures { SameRoom out.old out.new }
{
    put(out, "% household %: ", &[count, lookup.household]);
    match lookup.stage {
        Stage::Ended(end) => put_end(out, end),
        Stage::Asking(_) => {
            put(out, "lookup of ", &[]);
            put_key(out, lookup.key);
            put(out, ", slot %\n", &[u64::from(lookups::slot(lookup.key))]);
        }
    }
}

// A question, and what the node replied. A first one goes to the cached owner, and is told with the epoch that a MOVED is
// held against; or to node 0.
pub fn put_question(out: &mut Writer, question: Question, cached: Option<u64>, redirect: Redirect)
    ensures { SameRoom out.old out.new }
{
    let node = u64::from(question.node);
    match cached {
        _ if question.asking => put(out, "  asks node % with ASKING: ", &[node]),
        _ if question.hops > 0 => put(out, "  asks node %: ", &[node]),
        Some(epoch) => put(out, "  asks node %, cached at epoch %: ", &[node, epoch]),
        None => put(out, "  asks node %, none cached: ", &[node]),
    }
    tellings::put_redirect(out, redirect);
    put(out, "\n", &[]);
}

// What comes out: the household and the key that the lookup carries, and how it ended. Where the gateway refused, that was
// told where the lookup starts, and nothing more.
pub fn put_account(out: &mut Writer, lookup: Lookup)
    ensures { SameRoom out.old out.new }
{
    match lookup.stage {
        Stage::Asking(_) | Stage::Ended(End::Refused(_)) => {}
        Stage::Ended(end) => {
            put(out, "  household %, ", &[lookup.household]);
            put_key(out, lookup.key);
            put(out, ": ", &[]);
            put_end(out, end);
        }
    }
}
