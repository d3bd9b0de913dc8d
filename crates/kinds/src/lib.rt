// What each kind of frame does, past the refusals and with clock and currentEpoch risen.
#![tactic(auto)]

ghost use Rattle.std.specs.Prelude.{◌≡◌};
ghost use Rattle.answers.specs.declared.Answer.TheVariants.{Done};
ghost use Rattle.state.specs.Outcomes.{answered};
ghost use Rattle.frames.specs.Frames.{bitmap_of};
ghost use Rattle.heartbeats.specs.Heartbeats.{heartbeat};
ghost use Rattle.votes.specs.Votes.{requested};
ghost use Rattle.kinds.specs.Kinds.{on_kind};

use answers::Answer;
use frames::{Header, Kind};
use state::{Node, Outcome, Role};

// Kind 1: the bitmap is read into an array, and lent. Kind 4 has its own such function, since one that returned the array would
// copy 2 KB and one that lent it to a closure would be longer than both.
#[tactic(auto, using(frames::proofs::Claims::bitmap_long))]
fn heartbeat(
    node: Node,
    slots: &mut [u16],
    line: &[u8],
    sender: u8,
    role: Role,
    config: u64,
) -> Outcome
    ensures { record { outcome = result; slots = slots.new } ≡ heartbeat node slots.old (bitmap_of line.now) sender role config }
{
    let mut bits = [0u8; 2048];
    frames::bitmap(line, &mut bits);
    heartbeats::heartbeat(node, slots, &bits, sender, role, config)
}

// Kind 4.
#[tactic(auto, using(frames::proofs::Claims::bitmap_long))]
fn request(
    node: Node,
    slots: &[u16],
    line: &[u8],
    candidate: u8,
    current: u64,
    config: u64,
) -> Outcome
    ensures { result ≡ requested node slots.now (bitmap_of line.now) candidate current config }
{
    let mut bits = [0u8; 2048];
    frames::bitmap(line, &mut bits);
    votes::request(node, slots, &bits, candidate, current, config)
}

fn done(node: Node) -> Outcome
    ensures { result ≡ answered node Done }
{
    Outcome {
        answer: Answer::Done,
        node,
    }
}

// The table of kinds.
#[tactic(auto, unfolding(crate::specs::Kinds::on_kind))]
pub fn by_kind(
    node: Node,
    slots: &mut [u16],
    reports: &mut [u64],
    line: &[u8],
    header: Header,
    kind: Kind,
) -> Outcome
    ensures { record { outcome = result; slots = slots.new; reports = reports.new } ≡ on_kind node slots.old reports.old (bitmap_of line.now) header kind }
{
    match kind {
        Kind::Heartbeat { sender, role } => {
            heartbeat(node, slots, line, sender, role, header.config)
        }
        Kind::Report {
            reporter,
            subject,
            verdict,
        } => done(reports::report(node, slots, reports, reporter, subject, verdict)),
        Kind::Fail { subject, .. } => done(reports::fail(node, subject)),
        Kind::Request { candidate } => {
            request(node, slots, line, candidate, header.epoch, header.config)
        }
        Kind::Ack { voter, candidate } => { acks::ack(node, slots, voter, candidate, header.epoch) }
        Kind::Probe { subject, echo } => done(probes::probe(node, slots, subject, echo)),
        Kind::Tick => done(probes::tick(node, slots, reports)),
    }
}
