// A record or a node with one thing changed and the rest kept.
#![tactic(auto)]

ghost use Rattle.std.specs.Prelude.{◌≡◌};
ghost use Rattle.state.specs.Changes.{with_role, with_config, with_ping, with_flag, with_vote, with_marks, with_current, with_clock, with_election, risen, arrived};

use state::{Election, Flag, Mark, Node, Record, Role};
use tables::MARKS;

// ---- a record

pub fn with_role(known: Record, role: Role) -> Record
    ensures { result ≡ with_role role known }
{
    Record { role, ..known }
}

pub fn with_config(known: Record, config: u64) -> Record
    ensures { result ≡ with_config config known }
{
    Record { config, ..known }
}

pub fn with_ping(known: Record, ping: Option<u64>) -> Record
    ensures { result ≡ with_ping ping known }
{
    Record { ping, ..known }
}

pub fn with_flag(known: Record, flag: Flag) -> Record
    ensures { result ≡ with_flag flag known }
{
    Record { flag, ..known }
}

pub fn with_vote(known: Record, vote: Option<u64>) -> Record
    ensures { result ≡ with_vote vote known }
{
    Record { vote, ..known }
}

// ---- the node

#[tactic(auto, unfolding(state::specs::Changes::with_marks))]
pub fn with_marks(node: Node, marks: [Mark; MARKS], marked: u16) -> Node
    ensures { result ≡ with_marks marks marked node }
{
    Node {
        marks,
        marked,
        ..node
    }
}

#[tactic(auto, unfolding(state::specs::Changes::with_current))]
pub fn with_current(node: Node, current: u64) -> Node
    ensures { result ≡ with_current current node }
{
    Node { current, ..node }
}

#[tactic(auto, unfolding(state::specs::Changes::with_clock))]
pub fn with_clock(node: Node, clock: u64) -> Node
    ensures { result ≡ with_clock clock node }
{
    Node { clock, ..node }
}

#[tactic(auto, unfolding(state::specs::Changes::with_election))]
pub fn with_election(node: Node, election: Option<Election>) -> Node
    ensures { result ≡ with_election election node }
{
    Node { election, ..node }
}

// An epoch that rises to another if that is greater.
pub fn risen(old: u64, new: u64) -> u64
    ensures { result ≡ risen old new }
{
    old.max(new)
}

// Past the refusals: the clock is the frame's time, and currentEpoch rises to the frame's epoch.
#[tactic(auto, unfolding(state::specs::Changes::with_clock, state::specs::Changes::with_current))]
pub fn arrived(node: Node, time: u64, epoch: u64) -> Node
    ensures { result ≡ arrived time epoch node }
{
    let current = risen(node.current, epoch);
    Node {
        clock: time,
        current,
        ..node
    }
}
