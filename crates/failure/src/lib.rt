// Who signals a node, and the look at one node: document 01, "Report, fail", and document 02, [3]. A node gets here as it is past
// the refusals, with the frame's time as its clock, and with the set of its voting masters. Subjects, sets, lent tables and the
// node may be anything.
#![tactic(auto)]

ghost use Rattle.std.specs.Prelude.{◌≡◌, get_or};
ghost use Rattle.failure.specs.Failure.{report_at, recent, signals, signallers, with_master, flag_if_signalled};

use nodesets::NodeSet;
use state::{Flag, Node, Role};
use tables::NODES;

// Where the report about a subject by a reporter stands.
pub fn report_at(subject: u16, reporter: u16) -> usize
    ensures { result ≡ report_at subject reporter }
{
    NODES * usize::from(subject) + usize::from(reporter)
}

// The stored report at a place; past the list there is none. None is 0 and a time is kept as one more, since C lends the list.
fn stored_at(reports: &[u64], place: usize) -> u64
    ensures { result ≡ get_or reports.now place 0 }
{
    reports.get(place).copied().unwrap_or(0)
}

#[tactic(auto, unfolding(crate::specs::Failure::recent))]
fn is_recent(node: &Node, stored: u64) -> bool
    ensures { result ≡ recent node.now stored }
{
    if stored == 0 {
        return false;
    }
    let t = stored - 1;
    t <= node.clock && !ages::over_twice(node.timeout, ages::age(node.clock, t))
}

#[tactic(auto, unfolding(crate::specs::Failure::signals))]
fn is_signaller(node: &Node, voters: NodeSet, reports: &[u64], subject: u16, k: u16) -> bool
    ensures { result ≡ signals node.now voters reports.now subject k }
{
    if k >= node.size || !nodesets::has(voters, k) {
        return false;
    }
    k == node.me || k != subject && is_recent(node, stored_at(reports, report_at(subject, k)))
}

// A set of masters with node k, if its role is a master's.
pub fn with_master(masters: NodeSet, k: u16, role: Role) -> NodeSet
    ensures { result ≡ with_master masters k role }
{
    if state::is_master(role) {
        return nodesets::add(masters, k);
    }
    masters
}

fn gather_signallers(node: &Node, voters: NodeSet, reports: &[u64], subject: u16) -> NodeSet
    ensures { result ≡ signallers node.now voters reports.now subject }
{
    let mut set = nodesets::none();
    for k in 0..state::listed(node.size) {
        if is_signaller(node, voters, reports, subject, k) {
            set = nodesets::add(set, k);
        }
    }
    set
}

// The look at one node: PFAIL becomes FAIL if more than half of the voting masters signal it.
#[tactic(auto, unfolding(crate::specs::Failure::flag_if_signalled, crate::specs::Failure::most_signal))]
pub fn flag_if_signalled(
    node: Node,
    voters: NodeSet,
    reports: &[u64],
    subject: u16,
    flag: Flag,
) -> Flag
    ensures { result ≡ flag_if_signalled node voters reports.now subject flag }
{
    if state::is_pfail(flag)
        && nodesets::majority(voters, gather_signallers(&node, voters, reports, subject))
    {
        return Flag::Fail(node.clock);
    }
    flag
}
