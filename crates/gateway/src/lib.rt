// The gateway's router: document 02, [4] and [5]. It has a cached map, the slots' owners and how new each of them is, and lookups
// that each go their own way over it.
// Of a node it knows what `routing` promises, and nothing else.
#![tactic(auto)]

ghost use Rattle.std.specs.Prelude.{◌≡◌};
ghost use Rattle.routing.specs.Replies.{reply};
ghost use Rattle.lookups.specs.Keys.{slot_of};
ghost use Rattle.cache.specs.Cache.{map_of, wrong_length, entry_at, held_epoch};
ghost use Rattle.gateway.specs.Gateway.{no_roster, first_asked, first_stage, started, turn, named_slot, learn, taken, with_asking, asked};

use cache::Entry;
use lookups::{End, Key, Lookup, Question, Stage, Turn};
use routing::Redirect;
use state::Node;

// The answer to a key that a lookup has no room for, a number of ours. Refusals are numbers here since `lookups` promises them so. The
// map and its epochs are two lists, entry by entry, since C and callers lend them so.
pub const KEY_TOO_LONG: u8 = 49;

// The roster's size is outside 1 to 64.
#[tactic(auto, unfolding(crate::specs::Gateway::no_roster))]
fn no_roster(size: u16) -> bool
    ensures { result ≡ no_roster size }
{
    size == 0 || size > tables::MOST_NODES
}

// ---- a lookup starts

// The cached owner, or node 0 if there is none.
fn first_asked(size: u16, owner: u16) -> u16
    ensures { result ≡ first_asked size owner }
{
    if owner < size { owner } else { 0 }
}

fn first_stage(map: &[u16], epochs: &[u64], size: u16, key: Key) -> Stage
    ensures { result ≡ first_stage (wrong_length (map_of map.now epochs.now)) (entry_at (map_of map.now epochs.now) (slot_of key)).owner size key }
{
    if cache::wrong_length(map, epochs) {
        return Stage::Ended(End::Refused(1));
    }
    if no_roster(size) {
        return Stage::Ended(End::Refused(3));
    }
    if key.length > lookups::ROOM {
        return Stage::Ended(End::Refused(KEY_TOO_LONG));
    }
    let slot = lookups::slot(key);
    Stage::Asking(Question {
        node: first_asked(size, cache::owner_at(map, slot)),
        asking: false,
        hops: 0,
    })
}

// A household's lookup of a key, with a map of the slots' owners and their epochs, and a roster of that size.
pub fn start(map: &[u16], epochs: &[u64], size: u16, household: u64, key: Key) -> Lookup
    ensures { result ≡ started (map_of map.now epochs.now) size household key }
{
    Lookup {
        household,
        key,
        stage: first_stage(map, epochs, size, key),
    }
}

// ---- a reply arrives

// The slot that a redirection names. One that is followed names the key's, so that need not be computed again.
fn named(redirect: Redirect) -> u16
    ensures { result ≡ named_slot (reply redirect) }
{
    match redirect {
        Redirect::Ask { slot, .. } | Redirect::Moved { slot, .. } => slot,
        _ => 0,
    }
}

// What a reply does at a stage. It is held against the entry of the slot that it names: one that names another than the key's is
// bad whatever stands there.
#[tactic(auto, unfolding(crate::specs::Gateway::turn))]
fn turn(map: &[u16], epochs: &[u64], size: u16, key: Key, stage: Stage, redirect: Redirect) -> Turn
    ensures { result ≡ turn (wrong_length (map_of map.now epochs.now)) size (slot_of key) (held_epoch size (entry_at (map_of map.now epochs.now) (slot_of key))) stage (reply redirect) }
{
    match stage {
        Stage::Ended(_) => lookups::turns(stage),
        Stage::Asking(question) => {
            if cache::wrong_length(map, epochs) {
                return lookups::ends(End::Refused(1));
            }
            if no_roster(size) {
                return lookups::ends(End::Refused(3));
            }
            let held = cache::held_epoch(map, epochs, size, named(redirect));
            lookups::heard(size, key, held, question, redirect)
        }
    }
}

// What was learned goes into the slot's entry.
fn learn(map: &mut [u16], epochs: &mut [u64], slot: u16, learned: Option<Entry>)
    ensures { map_of map.new epochs.new ≡ learn (map_of map.old epochs.old) slot learned }
{
    if let Some(entry) = learned {
        cache::enter(map, epochs, slot, entry);
    }
}

// A lookup takes the reply of the node that it asked.
pub fn take(
    lookup: Lookup,
    map: &mut [u16],
    epochs: &mut [u64],
    size: u16,
    redirect: Redirect,
) -> Lookup
    ensures { record { lookup = result; map = map_of map.new epochs.new } ≡ taken lookup (map_of map.old epochs.old) size (reply redirect) }
{
    let turn = turn(map, epochs, size, lookup.key, lookup.stage, redirect);
    learn(map, epochs, named(redirect), turn.learned);
    lookups::at(lookup, turn.stage)
}

// ---- a node is asked

// The next question goes with ASKING.
fn with_asking(stage: Stage) -> bool
    ensures { result ≡ with_asking stage }
{
    matches!(stage, Stage::Asking(Question { asking: true, .. }))
}

// A lookup asks a node, which has the key or not, and takes its reply.
pub fn ask(
    lookup: Lookup,
    map: &mut [u16],
    epochs: &mut [u64],
    size: u16,
    node: Node,
    slots: &[u16],
    present: bool,
) -> Lookup
    ensures { record { lookup = result; map = map_of map.new epochs.new } ≡ asked lookup (map_of map.old epochs.old) size node slots.now present }
{
    let key = lookups::part(&lookup.key.bytes, lookup.key.length);
    let asking = with_asking(lookup.stage);
    let redirect = routing::route(node, slots, key, present, asking);
    take(lookup, map, epochs, size, redirect)
}
