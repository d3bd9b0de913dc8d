// A fresh node of a roster, and fresh tables: document 01, "The node and what it holds".
#![tactic(auto)]

ghost use Rattle.std.specs.Prelude.{◌≡◌};
ghost use Rattle.tables.specs.Sizes.{node_room};
ghost use Rattle.fresh.specs.Fresh.{id_of, ids_of, newcomer, fresh_node, fresh_slots, fresh_reports};

use state::{Flag, Mark, Move, Node, NodeId, Record, Role};
use tables::{MARKS, NODES};

// The id of a number in a numbered roster: 19 zero bytes and the number.
pub fn id(number: u8) -> NodeId
    ensures { result ≡ id_of number }
{
    let mut bytes = [0u8; 20];
    bytes[19] = number;
    NodeId { bytes }
}

// The ids of a numbered roster, as many as a roster has.
pub fn ids() -> [NodeId; NODES]
    ensures { result ≡ ids_of node_room }
{
    let mut ids = [id(0); NODES];
    for k in 0..NODES as u8 {
        ids[usize::from(k)] = id(k);
    }
    ids
}

fn newcomer(role: Role) -> Record
    ensures { result ≡ newcomer role }
{
    Record {
        role,
        config: 0,
        ping: None,
        flag: Flag::Clear,
        vote: None,
    }
}

// A fresh node of a roster: clock and epochs 0, no times, flags, marks or election.
pub fn node(ids: [NodeId; NODES], roles: [Role; NODES], size: u16, me: u16, timeout: u64) -> Node
    ensures { result ≡ fresh_node ids roles size me timeout }
{
    let records = roles.map(newcomer);
    let mark = Mark {
        slot: 0,
        movement: Move::Migrating(0),
    };
    Node {
        ids,
        records,
        marks: [mark; MARKS],
        size,
        me,
        marked: 0,
        current: 0,
        voted: 0,
        clock: 0,
        timeout,
        election: None,
    }
}

// Every slot unowned.
pub fn slots(slots: &mut [u16])
    ensures { slots.new ≡ fresh_slots slots.old }
{
    slots.fill(tables::UNOWNED);
}

// Nothing reported.
pub fn reports(reports: &mut [u64])
    ensures { reports.new ≡ fresh_reports reports.old }
{
    reports.fill(0);
}
