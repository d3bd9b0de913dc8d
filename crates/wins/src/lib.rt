// An election won: document 01, "Election", answer 30, with document 02, [14].
#![tactic(auto)]

ghost use Rattle.std.specs.Prelude.{◌≡◌, cond, eqb, ltb};
ghost use Rattle.state.specs.declared.Role.TheVariants.{Master};
ghost use Rattle.wins.specs.Wins.{passes, handed_over, won};

use answers::Answer;
use state::{Node, Outcome, Record, Role};

// Every slot of one owner goes to another, and how many did.
fn pass_on(slots: &mut [u16], old: u16, me: u16) -> usize
    ensures { record { count = result; slots = slots.new } ≡ handed_over (λ owner. eqb owner old) me slots.old }
{
    let mut count = 0;
    for owner in slots.iter_mut() {
        if *owner == old {
            *owner = me;
            count += 1;
        }
    }
    count
}

// The winner takes what its old master owned, if that one's known configEpoch is below the election's epoch: slots never go
// to an owner that is older.
fn take_over(slots: &mut [u16], role: Role, me: u16, config: u64, epoch: u64) -> usize
    ensures { record { count = result; slots = slots.new } ≡ handed_over (passes role config epoch) me slots.old }
{
    if config >= epoch {
        return 0;
    }
    match role {
        Role::Master => 0,
        Role::Replica(old) => pass_on(slots, u16::from(old), me),
    }
}

// This node's own role; a number outside the roster is nobody's replica.
fn own_role(known: Record, me: u16, size: u16) -> Role
    ensures { result ≡ cond (ltb me size) known.role Master }
{
    if me < size { known.role } else { Role::Master }
}

// A master with the election's epoch, and the election is closed, whatever passes.
#[tactic(auto, using(records::proofs::Known::place_inside))]
pub fn won(node: Node, slots: &mut [u16], epoch: u64) -> Outcome
    ensures { record { outcome = result; slots = slots.new } ≡ won node slots.old epoch }
{
    let me = usize::from(node.me);
    let own = records::place_of(me);
    let mut next = node;
    let there = next.records[own];
    let role = own_role(records::known_of(me, there), node.me, node.size);
    let old = usize::from(state::followed(role));
    let master = records::known_of(old, next.records[records::place_of(old)]);
    let count = take_over(slots, role, node.me, master.config, epoch);
    let winner = changes::with_config(changes::with_role(there, Role::Master), epoch);
    next.records[own] = records::kept_of(me, winner, there);
    Outcome {
        answer: Answer::Won(count),
        node: changes::with_election(next, None),
    }
}
