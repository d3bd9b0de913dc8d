// The plain engine: document 01, "Heartbeat", once more, as one writes it down on a first reading: slot after slot, every bit looked at,
// nothing passed over. `heartbeats` has the fast engine; neither uses code of the other.
#![tactic(auto)]

ghost use Rattle.std.specs.Prelude.{◌≡◌, get_or};
ghost use Rattle.tables.specs.Checks.{all_of};
ghost use Rattle.state.specs.Node.{blank, record_at, master_at};
ghost use Rattle.state.specs.Changes.{with_record};
ghost use Rattle.slotwise.specs.Slotwise.{is_claimed, all_slots, role_said, raised, tie_checks, after_tie, plain_heartbeat};

use answers::{Answer, Tally};
use state::{Flag, Node, Outcome, Record, Role};
use tables::NODES;

// ---- records by their numbers

// What is known of node k; of a number past the records nothing.
fn record_at(node: Node, k: usize) -> Record
    ensures { result ≡ record_at node k }
{
    node.records.get(k).copied().unwrap_or(Record {
        role: Role::Master,
        config: 0,
        ping: None,
        flag: Flag::Clear,
        vote: None,
    })
}

// Another record of node k; a number past the records has none.
#[tactic(auto, unfolding(state::specs::Changes::with_records))]
fn with_record(node: Node, k: usize, known: Record) -> Node
    ensures { result ≡ with_record k known node }
{
    let mut next = node;
    if k < NODES {
        next.records[k] = known;
    }
    next
}

// ---- the sender

// The sender's role becomes the frame's.
fn role_said(node: Node, sender: u8, role: Role) -> Node
    ensures { result ≡ role_said sender role node }
{
    let number = usize::from(sender);
    with_record(
        node,
        number,
        changes::with_role(record_at(node, number), role),
    )
}

// A master's known configEpoch rises to the frame's if that is greater.
fn raised(node: Node, sender: u8, config: u64) -> Node
    ensures { result ≡ raised sender config node }
{
    let number = usize::from(sender);
    let known = record_at(node, number);
    if known.config < config {
        return with_record(node, number, changes::with_config(known, config));
    }
    node
}

// ---- the claims

// Whether slot s is claimed: bit s mod 8, least first, of byte s / 8. Past the bitmap's end nothing is.
fn is_claimed(bitmap: &[u8], s: usize) -> bool
    ensures { result ≡ is_claimed bitmap.now s }
{
    s / 8 < bitmap.len() && (bitmap[s / 8] >> (s % 8)) % 2 == 1
}

// The known configEpoch of an owner. The records are lent: `record_at` would copy the node for each slot.
fn config_of(records: &[Record; NODES], owner: u16) -> u64
    ensures { result ≡ (get_or records.now owner blank).config }
{
    records
        .get(usize::from(owner))
        .map_or(0, |known| known.config)
}

// Every slot of the table, one after the other: what the claims leave of it, and what they come to. A slot
// at which the sender is stale is named if none was before.
fn all_slots(node: Node, slots: &mut [u16], bitmap: &[u8], sender: u8, config: u64) -> Tally
    ensures { record { tally = result; slots = slots.new } ≡ all_slots node sender config bitmap.now slots.old }
{
    let sender = u16::from(sender);
    let mut bound = 0;
    let mut rebound = 0;
    let mut stale = None;
    for (s, owner) in slots.iter_mut().enumerate() {
        if !is_claimed(bitmap, s) {
            continue;
        }
        if *owner >= node.size {
            *owner = sender;
            bound += 1;
            continue;
        }
        if *owner == sender {
            continue;
        }
        let known = config_of(&node.records, *owner);
        if known < config {
            *owner = sender;
            rebound += 1;
            continue;
        }
        if known > config {
            stale = stale.or(Some(s));
        }
    }
    Tally {
        bound,
        rebound,
        stale,
    }
}

// ---- the tie

// A node of the roster that is recorded as a master now.
fn master_at(node: Node, k: u16) -> bool
    ensures { result ≡ master_at node k }
{
    k < node.size && state::is_master(record_at(node, usize::from(k)).role)
}

// Whether this node gives way at a tie, and takes a new epoch.
fn gives_way(node: Node, sender: u8, config: u64) -> bool
    ensures { result ≡ all_of (tie_checks sender config node) }
{
    let number = u16::from(sender);
    master_at(node, node.me)
        && master_at(node, number)
        && config == record_at(node, usize::from(node.me)).config
        && node.me < number
        && node.current < tables::TOP
}

// The tie: currentEpoch goes up by 1 and becomes our configEpoch, or nothing changes.
#[tactic(auto, unfolding(crate::specs::Slotwise::after_tie, state::specs::Changes::with_current))]
fn after_tie(node: Node, sender: u8, config: u64) -> Node
    ensures { result ≡ after_tie sender config node }
{
    if !gives_way(node, sender, config) {
        return node;
    }
    let me = usize::from(node.me);
    let epoch = node.current + 1;
    let mine = record_at(node, me);
    let mut next = with_record(node, me, changes::with_config(mine, epoch));
    next.current = epoch;
    next
}

// ---- the heartbeat

// A heartbeat past the refusals: the sender's role, of a master its configEpoch and its claims, and last the tie.
#[tactic(auto, unfolding(crate::specs::Slotwise::plain_heartbeat))]
pub fn heartbeat(
    node: Node,
    slots: &mut [u16],
    bitmap: &[u8],
    sender: u8,
    role: Role,
    config: u64,
) -> Outcome
    ensures { record { outcome = result; slots = slots.new } ≡ plain_heartbeat node slots.old bitmap.now sender role config }
{
    let said = role_said(node, sender, role);
    match role {
        Role::Replica(_) => {
            let none = Tally {
                bound: 0,
                rebound: 0,
                stale: None,
            };
            Outcome {
                answer: Answer::Heard(none),
                node: said,
            }
        }
        Role::Master => {
            let heard = raised(said, sender, config);
            let tally = all_slots(heard, slots, bitmap, sender, config);
            Outcome {
                answer: Answer::Heard(tally),
                node: after_tie(heard, sender, config),
            }
        }
    }
}
