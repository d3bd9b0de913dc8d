// The node's calls: a line (the refusals, then clock and currentEpoch, then the frame's kind), an opening, and marks.
#![tactic(auto)]

ghost use Rattle.std.specs.Prelude.{◌≡◌};
ghost use Rattle.openings.specs.Openings.{opens};
ghost use Rattle.marks.specs.MarkChanges.{set_mark, clear_mark};
ghost use Rattle.node.specs.Step.{on_frame};

use answers::Answer;
use frames::Frame;
use state::{Move, Node, Outcome};

// A frame's line, for every node, tables and bytes.
#[tactic(auto, using(answers::proofs::Checks::by_check), unfolding(crate::specs::Step::on_frame))]
pub fn frame(node: Node, slots: &mut [u16], reports: &mut [u64], line: &[u8]) -> Outcome
    ensures { record { outcome = result; slots = slots.new; reports = reports.new } ≡ on_frame node slots.old reports.old line.now }
{
    let decoded = frames::decode(line);
    if let Err(answer) = refusals::refusal(node, slots.len(), reports.len(), decoded) {
        return Outcome { answer, node };
    }
    let Some(Frame { header, kind }) = decoded else {
        return Outcome {
            answer: Answer::NotAFrame,
            node,
        };
    };
    let next = changes::arrived(node, header.time, header.epoch);
    kinds::by_kind(next, slots, reports, line, header, kind)
}

// An election opened: a call of its own, with the time.
pub fn open_election(node: Node, slots: &[u16], time: u64) -> Outcome
    ensures { result ≡ opens node slots.now time }
{
    openings::open(node, slots, time)
}

// A move mark set, and one cleared.
pub fn set_mark(node: Node, slots: &[u16], slot: u16, movement: Move) -> Outcome
    ensures { result ≡ set_mark node slots.now slot movement }
{
    marks::set_mark(node, slots, slot, movement)
}

pub fn clear_mark(node: Node, slot: u16) -> Outcome
    ensures { result ≡ clear_mark node slot }
{
    marks::clear_mark(node, slot)
}
