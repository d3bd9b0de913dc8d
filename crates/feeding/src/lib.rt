// A whole stream of lines fed to a node in pieces of one size, for callers that time it. It is a static library of its own
// (`rt staticlib feeding`): as a second caller of the node's step beside those of `exports` it would make these slower.
#![tactic(auto)]

ghost use Rattle.std.specs.Prelude.{◌≡◌, ◌≤◌, ◌<◌};
ghost use mathlib.Core.List.{foldl};
ghost use Rattle.cases.specs.Cases.{cases_node};
ghost use Rattle.streams.specs.Streams.{answers_of, stream};
ghost use Rattle.feeding.specs.Feeding.{begun, noted, digested};

use answers::Answer;

// The answers so far in one number.
fn noted(notes: u64, told: Option<Answer>) -> u64
    ensures { result ≡ foldl noted notes (answers_of told) }
{
    match told {
        None => notes,
        Some(answer) => notes % 16777216 * 131 + u64::from(answers::number(answer)) + 1,
    }
}

// A size of 0 asks for one piece with all bytes. With pieces of no byte the stream would never end.
fn piece_size(size: usize, length: usize) -> usize
    ensures { 0 < length → 0 < result }
{
    if size == 0 { length } else { size }
}

// Where the piece at hand ends; once that is used up, where the next one does.
fn piece_end(at: usize, end: usize, size: usize, length: usize) -> usize
    requires { (at < length) × (end ≤ length) × (0 < size) }
    ensures { (at < result) × (result ≤ length) }
{
    if at < end {
        return end;
    }
    if size > length - at {
        return length;
    }
    at + size
}

// A stream to the node of the cases, which starts fresh, in pieces of so many bytes: all its answers, and the epochs after it.
// These are the same whatever the size is: it decides how many calls are timed.
#[unsafe(no_mangle)]
pub extern "C" fn ukweribaso_feed(
    slots: &mut [u16],
    reports: &mut [u64],
    bytes: &[u8],
    size: usize,
) -> u64
    ensures { record { digest = result; slots = slots.new; reports = reports.new } ≡ digested (stream (begun cases_node slots.old reports.old) bytes.now) }
{
    let part = piece_size(size, bytes.len());
    let mut here = cases::node();
    let mut kept = scraps::none();
    let mut notes: u64 = 0;
    let mut at: usize = 0;
    let mut end: usize = 0;
    // No `for`: how far a call goes depends on where the lines end.
    while at < bytes.len() {
        end = piece_end(at, end, part, bytes.len());
        let fed = feed::feed(here, slots, reports, kept, &bytes[at..end]);
        here = fed.node;
        kept = fed.kept;
        notes = noted(notes, fed.told);
        at += fed.used;
    }
    notes % 4294967296 + here.current % 65536 * 4294967296 + here.voted % 65536 * 281474976710656
}
