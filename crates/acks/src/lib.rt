// An ack: document 01, "Election".
#![tactic(auto)]

ghost use Rattle.std.specs.Prelude.{◌≡◌};
ghost use Rattle.tables.specs.Checks.{checked};
ghost use Rattle.answers.specs.Refusing.{cleared};
ghost use Rattle.acks.specs.Acks.{ack_checks, counted, acked};

use answers::{Answer, Check};
use state::{Election, Node, Outcome};

// 32 to 36.
fn ack_refusal(node: Node, voter: u8, candidate: u8, epoch: u64, election: Election) -> Check
    ensures { result ≡ checked Err (ack_checks node voter candidate epoch election.epoch election.opened election.voters election.heard) cleared }
{
    if u16::from(candidate) != node.me {
        return Err(Answer::OtherCandidate);
    }
    if epoch != election.epoch {
        return Err(Answer::OtherEpoch);
    }
    if !nodesets::has(election.voters, u16::from(voter)) {
        return Err(Answer::NoVoter);
    }
    if ages::ack_too_late(node.timeout, ages::age(node.clock, election.opened)) {
        return Err(Answer::AckLate);
    }
    if nodesets::has(election.heard, u16::from(voter)) {
        return Err(Answer::AckRepeated);
    }
    Ok(())
}

// With a voter more heard: 30 when more than half of the set are, else 0.
fn counted(node: Node, slots: &mut [u16], election: Election) -> Outcome
    ensures { record { outcome = result; slots = slots.new } ≡ counted node slots.old election.epoch election.opened election.voters election.heard }
{
    if nodesets::majority(election.voters, election.heard) {
        return wins::won(node, slots, election.epoch);
    }
    Outcome {
        answer: Answer::Done,
        node: changes::with_election(node, Some(election)),
    }
}

// An ack, after the clock and currentEpoch have moved.
#[tactic(auto, using(answers::proofs::Checks::by_check), unfolding(crate::specs::Acks::acked))]
pub fn ack(node: Node, slots: &mut [u16], voter: u8, candidate: u8, epoch: u64) -> Outcome
    ensures { record { outcome = result; slots = slots.new } ≡ acked node slots.old voter candidate epoch }
{
    let Some(election) = node.election else {
        return Outcome {
            answer: Answer::NoElection,
            node,
        };
    };
    if let Err(answer) = ack_refusal(node, voter, candidate, epoch, election) {
        return Outcome { answer, node };
    }
    let heard = nodesets::add(election.heard, u16::from(voter));
    counted(node, slots, Election { heard, ..election })
}
