// A heartbeat: document 01, "Heartbeat". The node is copied once and changed in place; a struct that is handed on costs a copy.
#![tactic(auto)]

ghost use Rattle.std.specs.Prelude.{◌≡◌};
ghost use Rattle.tables.specs.Checks.{all_of};
ghost use Rattle.state.specs.Node.{record_at};
ghost use Rattle.state.specs.declared.Role.TheVariants.{Master};
ghost use Rattle.heartbeats.specs.Heartbeats.{heard_of, tied, heartbeat};

use answers::{Answer, Tally};
use state::{Node, Outcome, Record, Role};

// The sender's record after its frame: the role, and a master's configEpoch.
fn heard_of(known: Record, role: Role, config: u64) -> Record
    ensures { result ≡ heard_of role config known }
{
    let named = changes::with_role(known, role);
    match role {
        Role::Replica(_) => named,
        Role::Master => changes::with_config(named, changes::risen(known.config, config)),
    }
}

// Whether this node gives way at a tie, by its own record; the sender's says master.
fn ties(node: Node, mine: Record, sender: u8, config: u64) -> bool
    requires mine_value { mine ≡ record_at node node.me }
    requires sender_value { (record_at node sender).role ≡ Master }
    ensures { result ≡ all_of (tied sender config node) }
{
    let number = u16::from(sender);
    node.me < node.size
        && state::is_master(mine.role)
        && number < node.size
        && config == mine.config
        && node.me < number
        && node.current < tables::TOP
}

// A master's frame.
#[tactic(auto, using(records::proofs::Known::place_inside))]
fn of_master(node: Node, slots: &mut [u16], bitmap: &[u8], sender: u8, config: u64) -> Outcome
    ensures { record { outcome = result; slots = slots.new } ≡ heartbeat node slots.old bitmap.now sender Master config }
{
    let me = node.me as usize;
    let at = records::place_of(me);
    let number = sender as usize;
    let from = records::place_of(number);
    let mut next = node;
    let there = next.records[from];
    let heard = heard_of(there, Role::Master, config);
    next.records[from] = records::kept_of(number, heard, there);
    let configs = records::configs(&next.records, next.size);
    let tally = ownership::claim(
        slots,
        bitmap,
        &configs,
        next.size,
        u16::from(sender),
        config,
    );
    let mine = next.records[at];
    let own = records::known_of(me, mine);
    if ties(next, own, sender, config) {
        let epoch = next.current + 1;
        let bumped = changes::with_config(mine, epoch);
        next.records[at] = records::kept_of(me, bumped, mine);
        next.current = epoch;
    }
    Outcome {
        answer: Answer::Heard(tally),
        node: next,
    }
}

// A heartbeat past the refusals: the sender's role and configEpoch, its claims on the slot table, and last the tie.
#[tactic(auto, using(records::proofs::Known::place_inside))]
pub fn heartbeat(
    node: Node,
    slots: &mut [u16],
    bitmap: &[u8],
    sender: u8,
    role: Role,
    config: u64,
) -> Outcome
    ensures { record { outcome = result; slots = slots.new } ≡ heartbeat node slots.old bitmap.now sender role config }
{
    match role {
        Role::Master => of_master(node, slots, bitmap, sender, config),
        Role::Replica(_) => {
            let mut next = node;
            let number = sender as usize;
            let from = records::place_of(number);
            let there = next.records[from];
            let heard = heard_of(there, role, config);
            next.records[from] = records::kept_of(number, heard, there);
            let none = Tally {
                bound: 0,
                rebound: 0,
                stale: None,
            };
            Outcome {
                answer: Answer::Heard(none),
                node: next,
            }
        }
    }
}
