// Reports and fail frames: document 01, "Report, fail", and document 02, [3]. Each function gets the node as it is past the
// refusals, with the frame's time as its clock. Subjects, lent tables and the node may be anything.
#![tactic(auto)]

ghost use Rattle.std.specs.Prelude.{◌≡◌, set};
ghost use Rattle.state.specs.Node.{voting_masters};
ghost use Rattle.failure.specs.Failure.{report_at, stamp, looked_at};
ghost use Rattle.reports.specs.Reports.{reported, fail_flag, failed};

use state::{Flag, Node, Verdict};
use tables::NODES;

fn stamped(t: u64) -> u64
    ensures { result ≡ stamp t }
{
    if t < tables::TIME_END { t + 1 } else { 0 }
}

// The report by `reporter` about the subject is stored.
fn store(reports: &mut [u64], reporter: u8, subject: u8, t: u64)
    ensures { reports.new ≡ set reports.old (report_at subject reporter) (stamp t) }
{
    let place = failure::report_at(u16::from(subject), u16::from(reporter));
    if place < reports.len() {
        reports[place] = stamped(t);
    }
}

// The look at the subject. The voting masters are found only where it is PFAIL: the table is read once.
#[tactic(auto, unfolding(state::specs::Changes::with_records, failure::specs::Failure::looked_at))]
fn look_at(node: Node, slots: &[u16], reports: &[u64], subject: u8) -> Node
    ensures { result ≡ looked_at (voting_masters node slots.now) reports.now subject node }
{
    let k = usize::from(subject);
    let mut next = node;
    if k < NODES {
        let known = next.records[k];
        if state::is_pfail(known.flag) {
            let masters = state::masters(next);
            let owners = nodesets::among(slots);
            let voters = nodesets::both(masters, owners);
            next.records[k] = changes::with_flag(
                known,
                failure::flag_if_signalled(next, voters, reports, u16::from(subject), known.flag),
            );
        }
    }
    next
}

// A reporter says how the subject is.
#[tactic(auto, unfolding(crate::specs::Reports::reported, crate::specs::Reports::stored))]
pub fn report(
    node: Node,
    slots: &[u16],
    reports: &mut [u64],
    reporter: u8,
    subject: u8,
    verdict: Verdict,
) -> Node
    ensures { record { node = result; reports = reports.new } ≡ reported node slots.now reports.old reporter subject verdict }
{
    match verdict {
        Verdict::Fine => node,
        Verdict::Pfail | Verdict::Fail => {
            store(reports, reporter, subject, node.clock);
            look_at(node, slots, reports, subject)
        }
    }
}

fn fail_flag(now: u64, flag: Flag) -> Flag
    ensures { result ≡ fail_flag now flag }
{
    match flag {
        Flag::Clear | Flag::Pfail => Flag::Fail(now),
        Flag::Fail(_) => flag,
    }
}

// A fail frame: FAIL at once. A node that is FAIL already keeps its time.
#[tactic(auto, unfolding(crate::specs::Reports::failed, state::specs::Changes::with_records))]
pub fn fail(node: Node, subject: u8) -> Node
    ensures { result ≡ failed node subject }
{
    let k = usize::from(subject);
    let mut next = node;
    if k < NODES {
        let known = next.records[k];
        next.records[k] = changes::with_flag(known, fail_flag(next.clock, known.flag));
    }
    next
}
