// An election opened: document 01, "Election", and document 02, [3].
#![tactic(auto)]

ghost use Rattle.std.specs.Prelude.{◌≡◌, true, ◌<◌};
ghost use Rattle.tables.specs.Checks.{checked};
ghost use Rattle.tables.specs.Sizes.{top};
ghost use Rattle.state.specs.Node.{record_at, followed};
ghost use Rattle.soundness.specs.Sound.{sound};
ghost use Rattle.answers.specs.Refusing.{cleared};
ghost use Rattle.openings.specs.Openings.{young, open_checks, opening, standing, open_refusals, opens};

use answers::{Answer, Check};
use state::{Election, Flag, Node, Outcome, Role};

// 28: open, and its opening is too young.
fn young(node: Node) -> bool
    ensures { result ≡ young node node.election }
{
    node.election.is_some_and(|election| ages::opening_young(
        node.timeout,
        ages::age(node.clock, election.opened),
    ))
}

// 24, 25, 26, 28 and 9, by this node's role and the flag of the node that it follows.
fn open_refusal(node: Node, slots: &[u16], role: Role, flag: Flag) -> Check
    requires { flag ≡ (record_at node (followed role)).flag }
    ensures { result ≡ checked Err (open_checks node slots.now role) cleared }
{
    if state::is_master(role) {
        return Err(Answer::NotReplica);
    }
    if !state::is_fail(flag) {
        return Err(Answer::OwnMasterNotFailed);
    }
    if !state::owns(slots, u16::from(state::followed(role))) {
        return Err(Answer::OwnMasterEmpty);
    }
    if young(node) {
        return Err(Answer::ElectionYoung);
    }
    if node.current >= tables::TOP {
        return Err(Answer::AtTheTop);
    }
    Ok(())
}

// The next epoch's election. The checks have shown that there is a next epoch.
fn opening(node: Node, slots: &[u16]) -> Node
    requires { node.current < top }
    ensures { result ≡ opening node slots.now }
{
    let epoch = node.current + 1;
    let masters = state::masters(node);
    let owners = nodesets::among(slots);
    let voters = nodesets::both(masters, owners);
    let heard = nodesets::none();
    let next = changes::with_current(node, epoch);
    changes::with_election(
        next,
        Some(Election {
            epoch,
            opened: node.clock,
            voters,
            heard,
        }),
    )
}

// Past the refusals, with the clock moved: a sound node has records of itself and of the node that it follows.
fn standing(node: Node, slots: &[u16]) -> Outcome
    requires { sound node ≡ true }
    ensures { result ≡ standing node slots.now }
{
    let role = node.records[usize::from(node.me)].role;
    let known = node.records[usize::from(state::followed(role))];
    match open_refusal(node, slots, role, known.flag) {
        Err(answer) => Outcome { answer, node },
        Ok(()) => Outcome {
            answer: Answer::Done,
            node: opening(node, slots),
        },
    }
}

// 1 and 7, then 5 and 4.
#[tactic(auto, using(answers::proofs::Checks::in_two))]
fn early_refusal(node: Node, slots: &[u16], time: u64) -> Check
    ensures { result ≡ checked Err (open_refusals node slots.now time) cleared }
{
    entry::checks(node, slots.len() == usize::from(tables::SLOTS))?;
    if time >= tables::TIME_END {
        return Err(Answer::OutOfBounds);
    }
    if time < node.clock {
        return Err(Answer::BeforeClock);
    }
    Ok(())
}

// Opens an election, if this node may stand for one now.
#[tactic(auto, using(answers::proofs::Checks::by_check), unfolding(crate::specs::Openings::opens))]
pub fn open(node: Node, slots: &[u16], time: u64) -> Outcome
    ensures { result ≡ opens node slots.now time }
{
    match early_refusal(node, slots, time) {
        Err(answer) => Outcome { answer, node },
        Ok(()) => standing(changes::with_clock(node, time), slots),
    }
}
