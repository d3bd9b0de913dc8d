// The two engines of the heartbeat rule for C and Rust programs that hold one against the other: the fast one of `heartbeats` and the
// plain one of `slotwise`. A library of their own: beside the step, a second caller of the rule costs the step a copy of the state.
#![tactic(auto)]

ghost use Rattle.std.specs.Prelude.{◌≡◌, ℕ, List};
ghost use Rattle.state.specs.Outcomes.{Slotted};
ghost use Rattle.state.specs.declared.Node.{Node};
ghost use Rattle.state.specs.declared.Role.{Role};
ghost use Rattle.heartbeats.specs.Heartbeats.{heartbeat};
ghost use Rattle.slotwise.specs.Slotwise.{plain_heartbeat};
ghost use Rattle.engines.specs.Engines.{role_of, role_number, known_of, node_of, epochs_of, roles_of, answer_digest, handed};

use answers::Answer;
use state::{Flag, Node, Outcome, Record, Role};
use tables::NODES;

// The known configEpochs of a node by number, and currentEpoch behind them.
const EPOCHS: usize = NODES + 1;

// ---- a node in numbers

// A role: 0 for a master, m + 1 for a replica of m.
fn role_of(number: u16) -> Role
    ensures { result ≡ role_of number }
{
    if number == 0 {
        return Role::Master;
    }
    Role::Replica(((number - 1) % 256) as u8)
}

fn role_number(role: Role) -> u16
    ensures { result ≡ role_number role }
{
    match role {
        Role::Master => 0,
        Role::Replica(followed) => u16::from(followed) + 1,
    }
}

// What is known of a node, and nothing else: its role and its configEpoch.
fn known_of(role: u16, config: u64) -> Record
    ensures { result ≡ known_of role config }
{
    Record {
        role: role_of(role),
        config,
        ping: None,
        flag: Flag::Clear,
        vote: None,
    }
}

// A node of a numbered roster with the epochs and roles that are lent; all else is fresh.
fn node_of(epochs: &[u64; EPOCHS], roles: &[u16; NODES], size: u16, me: u16) -> Node
    ensures { result ≡ node_of epochs.now roles.now size me }
{
    let mut next = fresh::node(fresh::ids(), [Role::Master; NODES], size, me, 1000);
    for k in 0..NODES {
        next.records[k] = known_of(roles[k], epochs[k]);
    }
    next.current = epochs[NODES];
    next
}

// ---- what is told

// A heartbeat's answer in one number.
fn answer_digest(answer: Answer) -> u64
    ensures { result ≡ answer_digest answer }
{
    match answer {
        Answer::Heard(tally) => digests::of_tally(tally),
        _ => 0,
    }
}

// The answer, and the node's numbers as they were lent.
fn tell(outcome: Outcome, epochs: &mut [u64; EPOCHS], roles: &mut [u16; NODES]) -> u64
    ensures { (result ≡ answer_digest outcome.answer) × (epochs.new ≡ epochs_of outcome.node) × (roles.new ≡ roles_of outcome.node) }
{
    let node = outcome.node;
    let mut configs = [0u64; EPOCHS];
    let mut numbers = [0u16; NODES];
    for k in 0..NODES {
        let known = node.records[k];
        configs[k] = known.config;
        numbers[k] = role_number(known.role);
    }
    configs[NODES] = node.current;
    *epochs = configs;
    *roles = numbers;
    answer_digest(outcome.answer)
}

// ---- again and again

// An engine, and the rule that it keeps.
trait Engine {
    ghost rule: { List ℕ → ℕ → Role → ℕ → Node → List ℕ → Slotted };

    fn heartbeat(
        node: Node,
        slots: &mut [u16],
        bitmap: &[u8],
        sender: u8,
        role: Role,
        config: u64,
    ) -> Outcome
        ensures { record { outcome = result; slots = slots.new } ≡ rule bitmap.now sender role config node slots.old };
}

// A node is lent in numbers, and a heartbeat is handed to it so many times.
fn hand<E: Engine>(
    epochs: &mut [u64; EPOCHS],
    roles: &mut [u16; NODES],
    slots: &mut [u16],
    bitmap: &[u8],
    size: u16,
    me: u16,
    sender: u8,
    role: u16,
    config: u64,
    times: usize,
) -> u64
    ensures { record { digest = result; epochs = epochs.new; roles = roles.new; slots = slots.new } ≡ handed (E.rule bitmap.now sender (role_of role) config) times (node_of epochs.old roles.old size me) slots.old }
{
    let said = role_of(role);
    let mut outcome = Outcome {
        answer: Answer::Done,
        node: node_of(epochs, roles, size, me),
    };
    for _turn in 0..times {
        outcome = E::heartbeat(outcome.node, slots, bitmap, sender, said, config);
    }
    tell(outcome, epochs, roles)
}

// ---- the fast engine

struct Fast;

impl Engine for Fast {
    ghost rule = { λ bitmap sender role config node slots. heartbeat node slots bitmap sender role config };

    fn heartbeat(
        node: Node,
        slots: &mut [u16],
        bitmap: &[u8],
        sender: u8,
        role: Role,
        config: u64,
    ) -> Outcome {
        heartbeats::heartbeat(node, slots, bitmap, sender, role, config)
    }
}

// A node is lent in numbers: the known configEpochs by number with currentEpoch behind them, and the roles, 0 for a master and
// m + 1 for a replica of m. A heartbeat past the refusals is handed to it so many times, with its role in the same numbers. What comes
// back is the last answer in one number (bound, rebound, and the stale slot plus one or 0, 16 bits each from the lowest on; 0 if it was
// handed over no time); epochs, roles and slots are as the last one left them.
#[unsafe(no_mangle)]
pub extern "C" fn ukweribaso_heartbeats(
    epochs: &mut [u64; EPOCHS],
    roles: &mut [u16; NODES],
    slots: &mut [u16],
    bitmap: &[u8],
    size: u16,
    me: u16,
    sender: u8,
    role: u16,
    config: u64,
    times: usize,
) -> u64
    ensures { record { digest = result; epochs = epochs.new; roles = roles.new; slots = slots.new } ≡ handed (λ n t. heartbeat n t bitmap.now sender (role_of role) config) times (node_of epochs.old roles.old size me) slots.old }
{
    hand::<Fast>(
        epochs, roles, slots, bitmap, size, me, sender, role, config, times,
    )
}

// ---- the plain engine

struct Plain;

impl Engine for Plain {
    ghost rule = { λ bitmap sender role config node slots. plain_heartbeat node slots bitmap sender role config };

    fn heartbeat(
        node: Node,
        slots: &mut [u16],
        bitmap: &[u8],
        sender: u8,
        role: Role,
        config: u64,
    ) -> Outcome {
        slotwise::heartbeat(node, slots, bitmap, sender, role, config)
    }
}

// The same by the plain engine, which is held against the fast one: a name of the C interface.
#[unsafe(no_mangle)]
pub extern "C" fn ukweribaso_heartbeats_plain(
    epochs: &mut [u64; EPOCHS],
    roles: &mut [u16; NODES],
    slots: &mut [u16],
    bitmap: &[u8],
    size: u16,
    me: u16,
    sender: u8,
    role: u16,
    config: u64,
    times: usize,
) -> u64
    ensures { record { digest = result; epochs = epochs.new; roles = roles.new; slots = slots.new } ≡ handed (λ n t. plain_heartbeat n t bitmap.now sender (role_of role) config) times (node_of epochs.old roles.old size me) slots.old }
{
    hand::<Plain>(
        epochs, roles, slots, bitmap, size, me, sender, role, config, times,
    )
}
