// Pings, pongs and time: document 01, "Probe, tick", and document 02, [3]. Each function gets the node as it is past the
// refusals, with the frame's time as its clock. Subjects, lent tables and the node may be anything.
#![tactic(auto)]

ghost use Rattle.std.specs.Prelude.{◌≡◌};
ghost use Rattle.probes.specs.Probes.{started, recovered, pong_flag, after_probe, probed, overdue, flag_if_unanswered, ticked};

use state::{Echo, Flag, Node, Record, Role};
use tables::NODES;

// ---- probe

fn start(now: u64, ping: Option<u64>) -> Option<u64>
    ensures { result ≡ started now ping }
{
    ping.or(Some(now))
}

// Whether a pong clears FAIL, set at `failed`.
#[tactic(auto, unfolding(crate::specs::Probes::recovered))]
fn is_recovered(node: &Node, slots: &[u16], subject: u8, role: Role, failed: u64) -> bool
    ensures { result ≡ recovered node.now slots.now subject role failed }
{
    !state::is_master(role)
        || !state::owns(slots, u16::from(subject))
        || ages::over_twice(node.timeout, ages::age(node.clock, failed))
}

#[tactic(auto, unfolding(crate::specs::Probes::pong_flag))]
fn pong_flag(node: &Node, slots: &[u16], subject: u8, role: Role, flag: Flag) -> Flag
    ensures { result ≡ pong_flag node.now slots.now subject role flag }
{
    match flag {
        Flag::Fail(t) if !is_recovered(node, slots, subject, role, t) => flag,
        _ => Flag::Clear,
    }
}

// What is known of the subject after a probe.
#[tactic(auto, unfolding(crate::specs::Probes::after_probe))]
fn after_probe(node: &Node, slots: &[u16], subject: u8, echo: Echo, known: Record) -> Record
    ensures { result ≡ after_probe node.now slots.now subject echo known }
{
    match echo {
        Echo::Ping => changes::with_ping(known, start(node.clock, known.ping)),
        Echo::Pong => {
            let flag = pong_flag(node, slots, subject, known.role, known.flag);
            changes::with_ping(changes::with_flag(known, flag), None)
        }
    }
}

// A ping was sent to the subject, or its pong came.
#[tactic(auto, unfolding(crate::specs::Probes::probed, state::specs::Changes::with_records))]
pub fn probe(node: Node, slots: &[u16], subject: u8, echo: Echo) -> Node
    ensures { result ≡ probed node slots.now subject echo }
{
    let k = usize::from(subject);
    let mut next = node;
    if k < NODES {
        let known = next.records[k];
        next.records[k] = after_probe(&next, slots, subject, echo, known);
    }
    next
}

// ---- tick

fn is_overdue(node: &Node, ping: Option<u64>) -> bool
    ensures { result ≡ overdue node.now.clock node.now.timeout ping }
{
    ping.is_some_and(|t| node.timeout < ages::age(node.clock, t))
}

// PFAIL of another node that is unflagged and pending longer than T.
#[tactic(auto, unfolding(crate::specs::Probes::flag_if_unanswered, crate::specs::Probes::unanswered))]
fn flag_if_unanswered(node: &Node, k: u16, known: Record) -> Flag
    ensures { result ≡ flag_if_unanswered node.now k known }
{
    if k != node.me && state::is_clear(known.flag) && is_overdue(node, known.ping) {
        return Flag::Pfail;
    }
    known.flag
}

// Time went on: PFAIL of all first, and the masters gathered on the way; then the look at all. Where nobody is PFAIL the look
// changes nothing, and no table is read.
pub fn tick(node: Node, slots: &[u16], reports: &[u64]) -> Node
    ensures { result ≡ ticked node slots.now reports.now }
{
    let end = state::listed(node.size);
    let mut next = node;
    let mut masters = nodesets::none();
    let mut quiet = true;
    for k in 0..end {
        let i = usize::from(k);
        let known = next.records[i];
        masters = failure::with_master(masters, k, known.role);
        let flag = flag_if_unanswered(&next, k, known);
        quiet &= !state::is_pfail(flag);
        next.records[i] = changes::with_flag(known, flag);
    }
    if quiet {
        return next;
    }
    let owners = nodesets::among(slots);
    let voters = nodesets::both(masters, owners);
    for s in 0..end {
        let i = usize::from(s);
        let known = next.records[i];
        next.records[i] = changes::with_flag(
            known,
            failure::flag_if_signalled(next, voters, reports, s, known.flag),
        );
    }
    next
}
