// Answers and frames in one number each: the C interface passes numbers and slices only.
#![tactic(auto)]

ghost use Rattle.std.specs.Prelude.{◌≡◌};
ghost use Rattle.frames.specs.Lines.{verdict_byte, echo_byte, kind_bytes};
ghost use Rattle.digests.specs.Digest.{place, digest, outcome_digest};
ghost use Rattle.digests.specs.Frames.{mixed};

use answers::Tally;
use frames::{Header, Kind};
use state::{Echo, Outcome, Role, Verdict};

// A place, counted from 1: 0 for nothing.
pub fn place(found: Option<usize>) -> u64
    ensures { result ≡ place found }
{
    match found {
        None => 0,
        Some(s) => (s % 65535 + 1) as u64,
    }
}

// A claim's counts and its stale slot.
pub fn of_tally(tally: Tally) -> u64
    ensures { result ≡ digest tally }
{
    let bound = (tally.bound % 65536) as u64;
    let rebound = (tally.rebound % 65536) as u64;
    bound + rebound * 65536 + place(tally.stale) * 4294967296
}

// A call's answer and epochs.
pub fn of_outcome(outcome: Outcome) -> u64
    ensures { result ≡ outcome_digest outcome }
{
    let node = outcome.node;
    u64::from(answers::number(outcome.answer))
        + node.current % 65536 * 256
        + node.voted % 65536 * 16777216
}

fn mixed(head: [u8; 4], header: Header) -> u64
    ensures { result ≡ mixed head header }
{
    let four = u64::from(u32::from_le_bytes(head));
    four ^ header.epoch ^ (header.config << 1) ^ (header.time << 2)
}

fn verdict_byte(verdict: Verdict) -> u8
    ensures { result ≡ verdict_byte verdict }
{
    match verdict {
        Verdict::Fine => 0,
        Verdict::Pfail => 1,
        Verdict::Fail => 2,
    }
}

fn echo_byte(echo: Echo) -> u8
    ensures { result ≡ echo_byte echo }
{
    match echo {
        Echo::Ping => 0,
        Echo::Pong => 1,
    }
}

// The first four bytes of a frame.
fn kind_head(kind: Kind) -> [u8; 4]
    ensures { result ≡ kind_bytes kind }
{
    match kind {
        Kind::Heartbeat { sender, role } => match role {
            Role::Master => [1, sender, 0, 0],
            Role::Replica(followed) => [1, sender, 1, followed],
        },
        Kind::Report {
            reporter,
            subject,
            verdict,
        } => [2, reporter, subject, verdict_byte(verdict)],
        Kind::Fail { sender, subject } => [3, sender, subject, 0],
        Kind::Request { candidate } => [4, candidate, 0, 0],
        Kind::Ack { voter, candidate } => [5, voter, candidate, 0],
        Kind::Probe { subject, echo } => [6, subject, echo_byte(echo), 0],
        Kind::Tick => [7, 0, 0, 0],
    }
}

// A frame's first four bytes and its numbers.
pub fn of_frame(kind: Kind, header: Header) -> u64
    ensures { result ≡ mixed (kind_bytes kind) header }
{
    mixed(kind_head(kind), header)
}
