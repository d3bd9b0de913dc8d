// A vote request: document 01, "Vote request", and document 02, [3] and [10]. The node is copied once and changed in place; a
// struct that is handed on costs a copy, so the functions here take the node for its numbers and the records beside it.
#![tactic(auto)]

ghost use Rattle.std.specs.Prelude.{◌≡◌};
ghost use Rattle.tables.specs.Checks.{checked};
ghost use Rattle.state.specs.Node.{record_at, voting_master, role_at, followed};
ghost use Rattle.answers.specs.Refusing.{cleared};
ghost use Rattle.votes.specs.Votes.{follows_master, lately, request_checks, requested};

use answers::{Answer, Check};
use state::{Node, Outcome, Record, Role};

// The role of number k, by what is known of it; a number outside the roster is nobody's replica.
fn role_of(node: Node, k: u8, known: Record) -> Role
    requires { known ≡ record_at node k }
    ensures { result ≡ role_at node k }
{
    if u16::from(k) < node.size {
        known.role
    } else {
        Role::Master
    }
}

// Whether that role is a listed master's replica, by what is known of the one followed.
fn follows_master(node: Node, role: Role, known: Record) -> bool
    requires { known ≡ record_at node (followed role) }
    ensures { result ≡ follows_master node role }
{
    match role {
        Role::Master => false,
        Role::Replica(m) => u16::from(m) < node.size && state::is_master(known.role),
    }
}

fn lately(node: Node, vote: Option<u64>) -> bool
    ensures { result ≡ lately node vote }
{
    vote.is_some_and(|t| ages::under_twice(node.timeout, ages::age(node.clock, t)))
}

// Whether this node is a voting master, by what is known of it. The table is asked last: that may read all of it.
fn is_voting(node: Node, mine: Record, slots: &[u16]) -> bool
    requires { mine ≡ record_at node node.me }
    ensures { result ≡ voting_master node slots.now node.me }
{
    node.me < node.size && state::is_master(mine.role) && state::owns(slots, node.me)
}

// 11 to 16 and 18, by what is known of this node and of the one that the candidate follows, and by the slot table.
fn request_refusal(
    node: Node,
    mine: Record,
    role: Role,
    known: Record,
    slots: &[u16],
    bitmap: &[u8],
    epoch: u64,
) -> Check
    requires mine_value { mine ≡ record_at node node.me }
    requires known_value { known ≡ record_at node (followed role) }
    ensures { result ≡ checked Err (request_checks node slots.now role bitmap.now epoch) cleared }
{
    if !is_voting(node, mine, slots) {
        return Err(Answer::NotVoting);
    }
    if epoch < node.current {
        return Err(Answer::StaleEpoch);
    }
    if epoch <= node.voted {
        return Err(Answer::AlreadyVoted);
    }
    if !follows_master(node, role, known) {
        return Err(Answer::NoListedMaster);
    }
    if claims::empty(bitmap) {
        return Err(Answer::ClaimsNothing);
    }
    if !state::is_fail(known.flag) {
        return Err(Answer::MasterNotFailed);
    }
    if lately(node, known.vote) {
        return Err(Answer::VotedLately);
    }
    Ok(())
}

// A vote request, after the clock and currentEpoch have moved.
#[tactic(auto, using(records::proofs::Known::place_inside))]
pub fn request(
    node: Node,
    slots: &[u16],
    bitmap: &[u8],
    candidate: u8,
    epoch: u64,
    config: u64,
) -> Outcome
    ensures { result ≡ requested node slots.now bitmap.now candidate epoch config }
{
    let me = node.me as usize;
    let own = records::place_of(me);
    let number = candidate as usize;
    let from = records::place_of(number);
    let mut next = node;
    let mine = records::known_of(me, next.records[own]);
    let theirs = records::known_of(number, next.records[from]);
    let role = role_of(next, candidate, theirs);
    let m = state::followed(role) as usize;
    let at = records::place_of(m);
    let there = next.records[at];
    let known = records::known_of(m, there);
    let answer = match request_refusal(next, mine, role, known, slots, bitmap, epoch) {
        Err(why) => why,
        Ok(()) => {
            let configs = records::configs(&next.records, next.size);
            match claims::first_newer(next.size, &configs, slots, bitmap, config) {
                Some(slot) => Answer::Outdated(slot),
                None => {
                    let voted = changes::with_vote(there, Some(next.clock));
                    next.records[at] = records::kept_of(m, voted, there);
                    next.voted = epoch;
                    Answer::Granted
                }
            }
        }
    };
    Outcome { answer, node: next }
}
