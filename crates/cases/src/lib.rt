// The node of document 01's cases, fresh: the program is this node.
#![tactic(auto)]

ghost use Rattle.std.specs.Prelude.{◌≡◌};
ghost use Rattle.cases.specs.Cases.{cases_node};

use state::{Node, Role};
use tables::NODES;

// Nodes 0, 1 and 2 are masters, 3 and 4 replicas of 0; T is 1000, and this node is 1.
pub fn node() -> Node
    ensures { result ≡ cases_node }
{
    let mut ids = [fresh::id(0); NODES];
    ids[1] = fresh::id(1);
    ids[2] = fresh::id(2);
    ids[3] = fresh::id(3);
    ids[4] = fresh::id(4);
    let mut roles = [Role::Master; NODES];
    roles[3] = Role::Replica(0);
    roles[4] = Role::Replica(0);
    fresh::node(ids, roles, 5, 1, 1000)
}
