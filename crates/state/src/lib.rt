// The node and what it holds: document 01, "The node and what it holds".
#![tactic(auto)]

ghost use Rattle.std.specs.Prelude.{◌≡◌, min};
ghost use Rattle.tables.specs.Sizes.{node_room};
ghost use Rattle.state.specs.Node.{masters, is_master, is_fail, is_pfail, is_clear, peer_of, followed, owns};

use answers::Answer;
use nodesets::NodeSet;
use tables::{MARKS, MOST_NODES, NODES};

// A node's id. The roster lists its nodes in ascending order of their ids, so their numbers order as the ids do.
#[derive(Clone, Copy)]
pub struct NodeId {
    pub bytes: [u8; 20],
}

// A master, or the replica of the node with that number. Not an Option: `None` would say less plainly that a node is a master.
#[derive(Clone, Copy)]
pub enum Role {
    Master,
    Replica(u8),
}

// No flag, PFAIL, or FAIL with the time it was set.
#[derive(Clone, Copy)]
pub enum Flag {
    Clear,
    Pfail,
    Fail(u64),
}

// What is known of one node of the roster.
#[derive(Clone, Copy)]
pub struct Record {
    pub role: Role,
    // The known configEpoch.
    pub config: u64,
    // The pending ping.
    pub ping: Option<u64>,
    pub flag: Flag,
    // When a vote last went to one of its replicas.
    pub vote: Option<u64>,
}

// Where a slot moves: to or from a peer. Document 01 names this form, an enum of two cases.
#[derive(Clone, Copy)]
pub enum Move {
    Migrating(u8),
    Importing(u8),
}

// A move mark.
#[derive(Clone, Copy)]
pub struct Mark {
    pub slot: u16,
    pub movement: Move,
}

// An election: its epoch, when it opened, who may vote and whose acks were heard.
#[derive(Clone, Copy)]
pub struct Election {
    pub epoch: u64,
    pub opened: u64,
    pub voters: NodeSet,
    pub heard: NodeSet,
}

// What a report says of its subject.
#[derive(Clone, Copy)]
pub enum Verdict {
    Fine,
    Pfail,
    Fail,
}

// A probe: a ping was sent, or its pong came.
#[derive(Clone, Copy)]
pub enum Echo {
    Ping,
    Pong,
}

// Places of the arrays past `size` or `marked` are no part of the state. Memory is fixed, and document 01 names the form: arrays by value
// of ids, records and marks.
#[derive(Clone, Copy)]
pub struct Node {
    pub ids: [NodeId; NODES],
    pub records: [Record; NODES],
    pub marks: [Mark; MARKS],
    // How many nodes the roster has.
    pub size: u16,
    // This node's own number.
    pub me: u16,
    // How many move marks there are.
    pub marked: u16,
    // currentEpoch and lastVoteEpoch.
    pub current: u64,
    pub voted: u64,
    // The latest clock, and T, in milliseconds.
    pub clock: u64,
    pub timeout: u64,
    // At most one election is open.
    pub election: Option<Election>,
}

// What a call answers, and the node after it.
#[derive(Clone, Copy)]
pub struct Outcome {
    pub answer: Answer,
    pub node: Node,
}

pub fn is_master(role: Role) -> bool
    ensures { result ≡ is_master role }
{
    matches!(role, Role::Master)
}

// How many records the roster has.
pub fn listed(size: u16) -> u16
    ensures { result ≡ min size node_room }
{
    size.min(MOST_NODES)
}

// The masters listed now.
pub fn masters(node: Node) -> NodeSet
    ensures { result ≡ masters node }
{
    let mut set = nodesets::none();
    for k in 0..listed(node.size) {
        let known = node.records[usize::from(k)];
        if is_master(known.role) {
            set = nodesets::add(set, k);
        }
    }
    set
}

// Whom a replica follows; of a master no rule asks it, and the definition of that name says 0, so it is no Option.
pub fn followed(role: Role) -> u8
    ensures { result ≡ followed role }
{
    match role {
        Role::Master => 0,
        Role::Replica(m) => m,
    }
}

pub fn is_fail(flag: Flag) -> bool
    ensures { result ≡ is_fail flag }
{
    matches!(flag, Flag::Fail(_))
}

pub fn is_pfail(flag: Flag) -> bool
    ensures { result ≡ is_pfail flag }
{
    matches!(flag, Flag::Pfail)
}

pub fn is_clear(flag: Flag) -> bool
    ensures { result ≡ is_clear flag }
{
    matches!(flag, Flag::Clear)
}

pub fn peer_of(movement: Move) -> u8
    ensures { result ≡ peer_of movement }
{
    match movement {
        Move::Migrating(peer) | Move::Importing(peer) => peer,
    }
}

// Whether node k owns some slot of the table.
pub fn owns(slots: &[u16], k: u16) -> bool
    ensures { result ≡ owns slots.now k }
{
    tables::occurs(slots, k)
}
