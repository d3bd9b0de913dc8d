// What a frame is turned away for: the checks 1 to 8 of document 01, in their order.
#![tactic(auto)]

ghost use Rattle.std.specs.Prelude.{◌≡◌};
ghost use Rattle.refusals.specs.Refusals.{is_beyond, both_long, frame_refusal, refusal};

use answers::{Answer, Check};
use frames::{Frame, Header};
use state::Node;

// 5
#[tactic(auto, unfolding(crate::specs::Refusals::is_beyond))]
fn is_beyond(header: Header) -> bool
    ensures { result ≡ is_beyond header }
{
    tables::TOP < header.epoch
        || tables::TOP < header.config
        || header.epoch < header.config
        || tables::TIME_END <= header.time
}

// The checks on the frame itself, past 1, 7 and 2.
#[tactic(auto, unfolding(crate::specs::Refusals::frame_refusals))]
fn frame_refusal(node: Node, frame: Frame) -> Check
    ensures { result ≡ frame_refusal node (Some frame) }
{
    let names = naming::named(frame.kind);
    if naming::some_past(node.size, names.listed) {
        return Err(Answer::UnknownNode);
    }
    if naming::same(names.follower) {
        return Err(Answer::FollowsItself);
    }
    if naming::some_own(node.me, names.others) || naming::same(names.reporter) {
        return Err(Answer::OwnNumber);
    }
    if is_beyond(frame.header) {
        return Err(Answer::OutOfBounds);
    }
    if frame.header.time < node.clock {
        return Err(Answer::BeforeClock);
    }
    Ok(())
}

// Whether both tables lent have their lengths.
fn both_long(slots: usize, reports: usize) -> bool
    ensures { result ≡ both_long slots reports }
{
    slots == usize::from(tables::SLOTS) && reports == tables::REPORTS
}

// The first check that applies, by the lengths of the two tables lent, the node and what the line is.
#[tactic(auto, using(crate::proofs::Admitted::by_entry), unfolding(crate::specs::Refusals::frame_refusals))]
pub fn refusal(node: Node, slots: usize, reports: usize, line: Option<Frame>) -> Check
    ensures { result ≡ refusal node slots reports line }
{
    entry::checks(node, both_long(slots, reports))?;
    let Some(frame) = line else {
        return Err(Answer::NotAFrame);
    };
    frame_refusal(node, frame)
}
