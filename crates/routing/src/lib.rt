// Where a key goes: document 01, "Redirections", with the fuller MOVED of document 02, [5].
#![tactic(auto)]

ghost use Rattle.std.specs.Prelude.{◌≡◌, ◌<◌, length};
ghost use Rattle.routing.specs.Replies.{reply, is_importing, at_home, elsewhere, known_epoch, redirected, routed};

use answers::Answer;
use state::{Move, Node};

// A redirection, or a refusal.
// Not a Result: `reply`, `ReplySettles` and the gateway's definitions speak of these six cases.
#[derive(Clone, Copy)]
pub enum Redirect {
    WrongLength,
    Unsound,
    // Nobody owns the slot.
    Down,
    Serve,
    // This once, ask the node that the slot migrates to.
    Ask { slot: u16, peer: u16 },
    // The slot is that node's; its known configEpoch says how new that is.
    Moved { slot: u16, owner: u16, epoch: u64 },
}

fn is_importing(marking: Option<Move>) -> bool
    ensures { result ≡ is_importing marking }
{
    matches!(marking, Some(Move::Importing(_)))
}

// A slot of this node's own: a key that is not here any more may be where the slot migrates to.
fn at_home(slot: u16, present: bool, marking: Option<Move>) -> Redirect
    ensures { reply result ≡ at_home slot present marking }
{
    match marking {
        Some(Move::Migrating(to)) if !present => Redirect::Ask {
            slot,
            peer: u16::from(to),
        },
        _ => Redirect::Serve,
    }
}

// A slot of another's: who was sent here by an ASK is served.
fn elsewhere(slot: u16, owner: u16, epoch: u64, asking: bool, marking: Option<Move>) -> Redirect
    ensures { reply result ≡ elsewhere slot owner epoch asking marking }
{
    if is_importing(marking) && asking {
        return Redirect::Serve;
    }
    Redirect::Moved { slot, owner, epoch }
}

// The known configEpoch of a node; of a number that has no record, 0.
fn known_epoch(node: Node, k: u16) -> u64
    ensures { result ≡ known_epoch node k }
{
    match node.records.get(usize::from(k)) {
        Some(known) => known.config,
        None => 0,
    }
}

// A key of that slot, past the refusals.
fn redirected(node: Node, slots: &[u16], slot: u16, present: bool, asking: bool) -> Redirect
    requires { slot < length slots.now }
    ensures { reply result ≡ redirected node slots.now slot present asking }
{
    let owner = slots[usize::from(slot)];
    if owner >= node.size {
        return Redirect::Down;
    }
    let marking = marks::find(node, slot);
    if owner == node.me {
        return at_home(slot, present, marking);
    }
    elsewhere(slot, owner, known_epoch(node, owner), asking, marking)
}

// Where a key goes.
pub fn route(node: Node, slots: &[u16], key: &[u8], present: bool, asking: bool) -> Redirect
    ensures { reply result ≡ routed node slots.now key.now present asking }
{
    match entry::checks(node, slots.len() == usize::from(tables::SLOTS)) {
        Err(refusal) => match refusal {
            Answer::WrongLength => Redirect::WrongLength,
            _ => Redirect::Unsound,
        },
        Ok(()) => redirected(node, slots, slots::key_slot(key), present, asking),
    }
}
