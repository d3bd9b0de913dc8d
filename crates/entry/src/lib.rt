// What every call asks first: whether the tables that it is lent have their lengths, and whether its state is sound. Cheap tests
// come first, since every frame asks.
#![tactic(auto)]

ghost use Rattle.std.specs.Prelude.{◌≡◌, true, false, cond, ◌≤◌, ◌<◌};
ghost use Rattle.tables.specs.Checks.{checked};
ghost use Rattle.state.specs.Node.{record_at};
ghost use Rattle.soundness.specs.Sound.{sound, bounds_kept, election_sound, own_clear};
ghost use Rattle.answers.specs.Refusing.{cleared};
ghost use Rattle.entry.specs.Entry.{entry_checks};

use answers::{Answer, Check};
use state::{Node, Record};

#[tactic(auto, unfolding(soundness::specs::Sound::election_sound))]
fn election_sound(node: &Node, own: Record) -> bool
    requires { own ≡ record_at node.now node.now.me }
    ensures { result ≡ election_sound node.now node.now.election }
{
    match node.election {
        None => true,
        Some(open) => {
            !state::is_master(own.role)
                && open.epoch <= node.current
                && open.opened <= node.clock
                && nodesets::below(open.voters, node.size)
                && nodesets::within(open.heard, open.voters)
        }
    }
}

// What is recorded of this node itself, its election, and the state's arrays. The node is lent: one that is handed over and indexed
// is copied whole.
fn arrays_sound(node: &Node) -> bool
    requires { (bounds_kept node.now ≡ true) × (node.now.me < node.now.size) × (node.now.voted ≤ node.now.current) }
    ensures { result ≡ sound node.now }
{
    let own = node.records[usize::from(node.me)];
    if !soundness::own_clear(own) {
        return false;
    }
    if !election_sound(node, own) {
        return false;
    }
    let mut least: u16 = 0;
    for i in 0..usize::from(node.marked) {
        let mark = node.marks[i];
        if !soundness::mark_sound(node.size, node.me, mark) {
            return false;
        }
        if mark.slot < least {
            return false;
        }
        least = mark.slot + 1;
    }
    for k in 0..usize::from(node.size) {
        if !soundness::record_sound(node.size, node.clock, node.current, k, node.records[k]) {
            return false;
        }
    }
    for j in 1..usize::from(node.size) {
        if !soundness::earlier(node.ids[j - 1], node.ids[j]) {
            return false;
        }
    }
    true
}

// Whether a state keeps all that document 01 asks of it.
pub fn sound(node: Node) -> bool
    ensures { result ≡ sound node }
{
    if !soundness::bounded(node) {
        return false;
    }
    if node.me >= node.size {
        return false;
    }
    if node.voted > node.current {
        return false;
    }
    arrays_sound(&node)
}

// The checks 1 and 7, which every call makes first, by whether the tables that it is lent have their lengths.
pub fn checks(node: Node, lengths: bool) -> Check
    ensures { result ≡ checked Err (entry_checks lengths node) cleared }
{
    if !lengths {
        return Err(Answer::WrongLength);
    }
    if !sound(node) {
        return Err(Answer::Unsound);
    }
    Ok(())
}
