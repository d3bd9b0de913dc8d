// The nodes of a run of `replay`, each with what is kept of its feed: made, listed in a roster, and looked at for what is told
// of them. docs/REPLAY.md.
#![tactic(auto)]

ghost use Rattle.std.specs.Prelude.{◌≡◌, [], map, ◌%◌};
ghost use Rattle.tables.specs.Sizes.{node_room};
ghost use Rattle.scraps.specs.Scraps.{short, part_of};
ghost use Rattle.state.specs.Node.{record_at};
ghost use Rattle.seats.specs.Seats.{master, follows, waits, flag_number, flag_of};

use scraps::Kept;
use state::{Flag, Node, Record, Role};

// A node, and what is kept of its feed.
#[derive(Clone, Copy)]
pub struct Seat {
    pub node: Node,
    pub kept: Kept,
}

// Another node in its place.
pub fn seated(node: Node, past: Seat) -> Seat
    ensures { result ≡ record { node = node; kept = past.kept } }
{
    Seat { node, ..past }
}

// Numbers that the reading has seen to fit.
pub fn small(n: u64) -> u8
    ensures { result ≡ n % 256 }
{
    (n % 256) as u8
}

pub fn short(n: u64) -> u16
    ensures { result ≡ n % 65536 }
{
    (n % 65536) as u16
}

// Node k of a roster of masters, fresh, with nothing kept.
pub fn newcomer(size: u64, k: usize) -> Seat
    ensures { (result.node ≡ master (size % 65536) (k % 65536)) × (part_of result.kept ≡ short []) }
{
    let node = fresh::node(
        fresh::ids(),
        [Role::Master; tables::NODES],
        short(size),
        short(k as u64),
        1000,
    );
    Seat {
        node,
        kept: scraps::none(),
    }
}

// ---- a roster

// Every node lists a node as a replica of another.
#[tactic(auto, unfolding(state::specs::Changes::with_records))]
pub fn follow(node: Node, j: u64, master: u64) -> Node
    ensures { result ≡ follows (j % 64) (master % 256) node }
{
    let k = j as usize % tables::NODES;
    let mut next = node;
    let known = next.records[k];
    next.records[k] = changes::with_role(known, Role::Replica(small(master)));
    next
}

// A timeout of its own.
pub fn wait(node: Node, timeout: u64) -> Node
    ensures { result ≡ waits timeout node }
{
    Node { timeout, ..node }
}

// ---- what is told of a node

// What a node knows of itself.
pub fn own(node: Node) -> Record
    ensures { result ≡ record_at node (node.me % 64) }
{
    let me = node.me as usize % tables::NODES;
    node.records[me]
}

// Numbers, as the definition of that name has them: FAIL set at another time is no other flag to what is told.
fn flag_number(flag: Flag) -> u8
    ensures { result ≡ flag_number flag }
{
    match flag {
        Flag::Clear => 0,
        Flag::Pfail => 1,
        Flag::Fail(_) => 2,
    }
}

// The flags that it has set, as numbers. Past the roster's end none is.
pub fn flags(node: Node) -> [u8; tables::NODES]
    ensures { result ≡ map flag_of node.records }
{
    node.records.map(|known| flag_number(known.flag))
}
