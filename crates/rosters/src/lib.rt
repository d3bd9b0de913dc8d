// Rosters of any size for callers that time their frames: fresh, some nodes of them silent.
#![tactic(auto)]

ghost use Rattle.std.specs.Prelude.{◌≡◌, ◌≤◌};
ghost use Rattle.rosters.specs.Rosters.{silent, silenced, room, roster};

use state::{Flag, Node, Record, Role};

// A node that has not answered the ping which was sent to it at time 0.
fn silent(known: Record) -> Record
    ensures { result ≡ silent known }
{
    changes::with_ping(changes::with_flag(known, Flag::Pfail), Some(0))
}

// The nodes from 2 on are 62.
fn room(count: u16) -> u16
    ensures { (result ≡ room count) × (result ≤ 62) }
{
    count.min(62)
}

// So many nodes from 2 on are silent.
fn silence(node: Node, count: u16) -> Node
    ensures { result ≡ silenced (room count) node }
{
    let mut next = node;
    for k in 0..room(count) {
        let at = usize::from(k) + 2;
        next.records[at] = silent(next.records[at]);
    }
    next
}

// Node 1 of a roster of `size` nodes, of which so many are suspected.
#[tactic(auto, unfolding(crate::specs::Rosters::roster))]
pub fn roster(size: u16, suspected: u16) -> Node
    ensures { result ≡ roster size suspected }
{
    let mut roles = [Role::Master; tables::NODES];
    roles[3] = Role::Replica(0);
    roles[4] = Role::Replica(0);
    silence(fresh::node(fresh::ids(), roles, size, 1, 1000), suspected)
}
