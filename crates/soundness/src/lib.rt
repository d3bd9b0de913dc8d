// The parts of a sound state: document 01, "The node and what it holds". What is sound as a whole is asked in `entry`.
#![tactic(auto)]

ghost use Rattle.std.specs.Prelude.{◌≡◌};
ghost use Rattle.soundness.specs.Sound.{bounds_kept, before, follow_sound, moment_sound, flag_sound, record_sound, mark_sound, own_clear};

use state::{Flag, Mark, Node, NodeId, Record, Role};

// Whether an id stands before another, byte by byte. Measured: `a.bytes < b.bytes` took 34 ns where this takes 13, and a frame to 64
// nodes, which compares 63 times, twice its time.
pub fn earlier(a: NodeId, b: NodeId) -> bool
    ensures { result ≡ before a.bytes b.bytes }
{
    for i in 0..20 {
        let x = a.bytes[i];
        let y = b.bytes[i];
        if x != y {
            return x < y;
        }
    }
    false
}

fn follow_sound(size: u16, k: usize, role: Role) -> bool
    ensures { result ≡ follow_sound size k role }
{
    match role {
        Role::Master => true,
        Role::Replica(m) => u16::from(m) < size && usize::from(m) != k,
    }
}

fn moment_sound(clock: u64, moment: Option<u64>) -> bool
    ensures { result ≡ moment_sound clock moment }
{
    moment.is_none_or(|t| t <= clock)
}

fn flag_sound(clock: u64, flag: Flag) -> bool
    ensures { result ≡ flag_sound clock flag }
{
    match flag {
        Flag::Clear | Flag::Pfail => true,
        Flag::Fail(t) => t <= clock,
    }
}

pub fn record_sound(size: u16, clock: u64, current: u64, k: usize, known: Record) -> bool
    ensures { result ≡ record_sound size clock current k known }
{
    follow_sound(size, k, known.role)
        && moment_sound(clock, known.ping)
        && flag_sound(clock, known.flag)
        && moment_sound(clock, known.vote)
        && known.config <= current
}

pub fn mark_sound(size: u16, me: u16, mark: Mark) -> bool
    ensures { result ≡ mark_sound size me mark }
{
    let peer = u16::from(state::peer_of(mark.movement));
    mark.slot < tables::SLOTS && peer < size && peer != me
}

// This node has no flag and no pending ping of its own.
#[tactic(auto, unfolding(crate::specs::Sound::own_clear))]
pub fn own_clear(known: Record) -> bool
    ensures { result ≡ own_clear known }
{
    state::is_clear(known.flag) && known.ping.is_none()
}

// The bounds, the number of nodes and the number of marks.
#[tactic(auto, unfolding(crate::specs::Sound::bounds_kept))]
pub fn bounded(node: Node) -> bool
    ensures { result ≡ bounds_kept node }
{
    tables::LEAST_TIMEOUT <= node.timeout
        && node.timeout <= tables::MOST_TIMEOUT
        && node.clock < tables::TIME_END
        && node.current <= tables::TOP
        && 1 <= node.size
        && node.size <= tables::MOST_NODES
        && node.marked <= tables::MOST_MARKS
}
