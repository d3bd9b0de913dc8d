// A lookup of the gateway (document 02, [4] and [5]), walked over the nodes of a run and told: docs/REPLAY.md.
#![tactic(auto)]

ghost use Rattle.std.specs.Prelude.{◌≡◌, ◌%◌, take};
ghost use Rattle.lines.specs.Writers.{SameRoom};
ghost use Rattle.cache.specs.Cache.{map_of};
ghost use Rattle.gateway.specs.Gateway.{asked};
ghost use Rattle.walks.specs.Walks.{most_questions, table_of, holds, walked, LookedUp};

use calls::Call;
use lines::Writer;
use lookups::{Key, Lookup, Question, Stage};
use seats::Seat;
use sources::Source;
use state::Node;

// The most nodes of a run, and the entries of a node's slot table.
const ROOM: usize = runs::ROOM;

const SLOTS: usize = tables::SLOTS as usize;

// The place of the first word behind `held`.
const HELD: usize = 4;

// The epoch of the entry that the map has for the key's slot. The map is two lists here and below, as `gateway` takes it from C.
fn cached_epoch(map: &[u16], epochs: &[u64], size: u16, key: Key) -> Option<u64> {
    let slot = lookups::slot(key);
    if cache::owner_at(map, slot) >= size {
        return None;
    }
    Some(cache::held_epoch(map, epochs, size, slot))
}

// So many entries of a list; all of one that has fewer.
fn front<T>(list: &[T], n: usize) -> &[T]
    ensures { result.now ≡ take n list.now }
{
    if n < list.len() { &list[..n] } else { list }
}

// A node is named behind `held`.
fn is_named(call: Call, node: u16) -> bool
    ensures { result ≡ holds call node }
{
    front(&call.numbers[HELD..], call.words.saturating_sub(HELD)).contains(&u64::from(node))
}

// A node's slot table, in the list of all.
fn table(slots: &[u16], node: u16) -> &[u16]
    ensures { result.now ≡ table_of slots.now node }
{
    let from = usize::from(node) % ROOM * SLOTS;
    front(&slots[from.min(slots.len())..], SLOTS)
}

// One question, to the node that the lookup asks, with that node's table. It is routed once more for the words of the reply.
fn ask(
    lookup: Lookup,
    question: Question,
    map: &mut [u16],
    epochs: &mut [u64],
    size: u16,
    node: Node,
    table: &[u16],
    present: bool,
    out: &mut Writer,
) -> Lookup
    ensures taken { record { lookup = result; map = map_of map.new epochs.new } ≡ asked lookup (map_of map.old epochs.old) size node table.now present }
    ensures same_room { SameRoom out.old out.new }
{
    let key = lookup.key;
    let name = lookups::part(&key.bytes, key.length);
    let cached = cached_epoch(map, epochs, size, key);
    let redirect = routing::route(node, table, name, present, question.asking);
    accounts::put_question(out, question, cached, redirect);
    gateway::ask(lookup, map, epochs, size, node, table, present)
}

// The questions of a lookup, one after the other: one more than the redirections that are followed.
fn walk(
    start: Lookup,
    map: &mut [u16],
    epochs: &mut [u64],
    size: u16,
    seats: [Seat; ROOM],
    slots: &[u16],
    call: Call,
    out: &mut Writer,
) -> Lookup
    ensures taken { record { lookup = result; map = map_of map.new epochs.new } ≡ walked seats slots.now call size most_questions start (map_of map.old epochs.old) }
    ensures same_room { SameRoom out.old out.new }
{
    let mut lookup = start;
    for _asked in 0..lookups::HOPS + 1 {
        let Stage::Asking(q) = lookup.stage else {
            return lookup;
        };
        let present = is_named(call, q.node);
        let table = table(slots, q.node);
        let here = seats[usize::from(q.node) % ROOM];
        lookup = ask(lookup, q, map, epochs, size, here.node, table, present, out);
    }
    lookup
}

// A line that says a lookup, done and told. The nodes stay as they are.
pub fn look_up(
    map: &mut [u16],
    epochs: &mut [u64],
    size: u64,
    seats: [Seat; ROOM],
    slots: &[u16],
    source: Source,
    call: Call,
    out: &mut Writer,
)
    ensures looked_up { LookedUp seats slots.now call (size % 65536) (map_of map.old epochs.old) (map_of map.new epochs.new) }
    ensures same_room { SameRoom out.old out.new }
{
    let kept = source.kept;
    let roster = seats::short(size);
    let key = lookups::key_of(calls::word(sources::characters(&kept.bytes, kept.length), 2));
    let lookup = gateway::start(map, epochs, roster, call.numbers[1], key);
    accounts::put_start(out, source.count, lookup);
    let walked = walk(lookup, map, epochs, roster, seats, slots, call, out);
    accounts::put_account(out, walked);
}
