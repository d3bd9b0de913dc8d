// One household's lookup of one key, and what a node's reply makes of it: document 02, [4] and [5]. The gateway's map is not seen
// here.
#![tactic(auto)]

ghost use Rattle.std.specs.Prelude.{◌≡◌, length};
ghost use Rattle.routing.specs.Replies.{reply};
ghost use Rattle.lookups.specs.Keys.{key_room, front_of, key_bytes, slot_of};
ghost use Rattle.lookups.specs.Lookups.{turns, ends, at, sent_on, heard};

use cache::Entry;
use routing::Redirect;

// The longest key that a lookup carries.
pub const ROOM: usize = 512;

// The redirections that are followed; one more ends the lookup.
pub const HOPS: u8 = 4;

// A key by value: the first `length` of the bytes. A greater length than ROOM says that it is too long. An array and a length,
// since memory is fixed and a lookup is a value.
#[derive(Clone, Copy)]
pub struct Key {
    pub bytes: [u8; ROOM],
    pub length: usize,
}

// Which node is asked next, whether with ASKING, and the redirections so far. The flag goes with the question, and says of no
// other field whether it counts.
#[derive(Clone, Copy)]
pub struct Question {
    pub node: u16,
    pub asking: bool,
    pub hops: u8,
}

// How a lookup ended.
#[derive(Clone, Copy)]
pub enum End {
    // By the node asked.
    Served(u16),
    // A reply named another slot than the key's, or no roster node.
    Bad,
    // Nobody owns the slot.
    Down,
    // The node asked refused, with that number. A number, since `heard` and what is proved of it speak of any refusal.
    Declined(u8),
    // A fifth redirection.
    TooMany,
    // A MOVED was older than the cached entry.
    Stale,
    // The gateway refused, with that number. A number, since a lookup that the caller hands back may hold any.
    Refused(u8),
}

// How a lookup stands. Not a Result: a lookup that was served has ended too, and that is no error.
#[derive(Clone, Copy)]
pub enum Stage {
    Asking(Question),
    Ended(End),
}

// What the gateway keeps while it waits for the network. The slot is the key's: a field for it could say another.
#[derive(Clone, Copy)]
pub struct Lookup {
    pub household: u64,
    pub key: Key,
    pub stage: Stage,
}

// What a reply does: the lookup's next stage, and the entry that is learned of the key's slot, if one is.
#[derive(Clone, Copy)]
pub struct Turn {
    pub stage: Stage,
    pub learned: Option<Entry>,
}

// ---- keys

// The front of a text; all of it where there is less.
pub fn part(text: &[u8], length: usize) -> &[u8]
    ensures { result.now ≡ front_of length text.now }
{
    text.get(..length).unwrap_or(text)
}

// The key that a text is: its bytes, as far as there is room, and its whole length.
pub fn key_of(text: &[u8]) -> Key
    ensures { (key_bytes result ≡ front_of key_room text.now) × (result.length ≡ length text.now) }
{
    let front = part(text, ROOM);
    let mut bytes = [0u8; ROOM];
    bytes[..front.len()].copy_from_slice(front);
    Key {
        bytes,
        length: text.len(),
    }
}

// The slot of a key.
pub fn slot(key: Key) -> u16
    ensures { result ≡ slot_of key }
{
    slots::key_slot(part(&key.bytes, key.length))
}

// ---- a lookup

// Nothing is learned.
pub fn turns(stage: Stage) -> Turn
    ensures { result ≡ turns stage }
{
    Turn {
        stage,
        learned: None,
    }
}

// The lookup ends.
pub fn ends(end: End) -> Turn
    ensures { result ≡ ends end }
{
    turns(Stage::Ended(end))
}

// The lookup at another stage: household and key are the ones that came in.
pub fn at(lookup: Lookup, stage: Stage) -> Lookup
    ensures { result ≡ at lookup stage }
{
    Lookup { stage, ..lookup }
}

// A redirection: bad, then a fifth, then stale, else followed. The slot is computed here, where it is needed.
fn sent_on(
    size: u16,
    key: Key,
    hops: u8,
    named: u16,
    node: u16,
    stale: bool,
    asking: bool,
    learned: Option<Entry>,
) -> Turn
    ensures { result ≡ sent_on size (slot_of key) hops named node stale asking learned }
{
    if named != slot(key) || node >= size {
        return ends(End::Bad);
    }
    if hops >= HOPS {
        return ends(End::TooMany);
    }
    if stale {
        return ends(End::Stale);
    }
    Turn {
        stage: Stage::Asking(Question {
            node,
            asking,
            hops: hops + 1,
        }),
        learned,
    }
}

// What the reply to a question does to a lookup of that key, whose slot's cached entry has the epoch `held`.
#[tactic(auto, unfolding(crate::specs::Lookups::heard))]
pub fn heard(size: u16, key: Key, held: u64, question: Question, redirect: Redirect) -> Turn
    ensures { result ≡ heard size (slot_of key) held question (reply redirect) }
{
    let hops = question.hops;
    match redirect {
        Redirect::WrongLength => ends(End::Declined(1)),
        Redirect::Unsound => ends(End::Declined(7)),
        Redirect::Down => ends(End::Down),
        Redirect::Serve => ends(End::Served(question.node)),
        Redirect::Ask { slot, peer } => sent_on(size, key, hops, slot, peer, false, true, None),
        Redirect::Moved { slot, owner, epoch } => {
            let learned = Some(Entry { owner, epoch });
            sent_on(size, key, hops, slot, owner, epoch < held, false, learned)
        }
    }
}
