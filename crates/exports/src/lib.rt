// What C and Rust programs may call: each function here hands on to a proved one, under a name of its own.
#![tactic(auto)]

ghost use Rattle.std.specs.Prelude.{◌≡◌};
ghost use Rattle.slots.specs.Key.{key_slot};
ghost use Rattle.listing.specs.Listing.{lists};
ghost use Rattle.cases.specs.Cases.{cases_node};
ghost use Rattle.rosters.specs.Rosters.{roster};
ghost use Rattle.frames.specs.Frames.{layout_of, bitmap_of, frame_of};
ghost use Rattle.digests.specs.Frames.{frame_digest};
ghost use Rattle.exports.specs.Frames.{by_layout, bitmap_after};
ghost use Rattle.exports.specs.Listings.{numbered};
ghost use Rattle.exports.specs.Steps.{first, again, repeated};

use answers::Answer;
use frames::{Kind, Layout};
use state::{Node, Outcome};

// The slot of a key: document 01, "Keys to slots".
#[unsafe(no_mangle)]
pub extern "C" fn ukweribaso_key_slot(key: &[u8]) -> u16
    ensures { result ≡ key_slot key.now }
{
    slots::key_slot(key)
}

// The ranges of a slot table, written to the list: document 02, [1]. It answers 0, 1 or 40.
#[unsafe(no_mangle)]
pub extern "C" fn ukweribaso_ranges(slots: &[u16], size: u16, list: &mut [u16]) -> u8
    ensures { record { number = result; list = list.new } ≡ numbered (lists size slots.now list.old) }
{
    answers::number(listing::list(slots, size, list))
}

fn bitmap_of(kind: Kind, line: &[u8], bitmap: &mut [u8; 2048])
    ensures { bitmap.new ≡ by_layout (layout_of kind) (bitmap_of line.now) bitmap.old }
{
    if let Layout::Long = frames::layout_of(kind) {
        frames::bitmap(line, bitmap);
    }
}

// A line decoded: its frame in one number, and for kinds 1 and 4 the bitmap.
#[unsafe(no_mangle)]
pub extern "C" fn ukweribaso_decode(line: &[u8], bitmap: &mut [u8; 2048]) -> u64
    ensures { (result ≡ frame_digest (frame_of line.now)) × (bitmap.new ≡ bitmap_after (frame_of line.now) line.now bitmap.old) }
{
    match frames::decode(line) {
        None => 0,
        Some(frame) => {
            bitmap_of(frame.kind, line, bitmap);
            digests::of_frame(frame.kind, frame.header)
        }
    }
}

// The same line so many times to a node, for callers that time it.
fn repeat(node: Node, slots: &mut [u16], reports: &mut [u64], line: &[u8], times: usize) -> Outcome
    ensures { record { outcome = result; slots = slots.new; reports = reports.new } ≡ again times line.now (first node slots.old reports.old) }
{
    let mut outcome = Outcome {
        answer: Answer::Done,
        node,
    };
    for _turn in 0..times {
        outcome = node::frame(outcome.node, slots, reports, line);
    }
    outcome
}

// To the node of the cases, which starts fresh.
#[unsafe(no_mangle)]
pub extern "C" fn ukweribaso_frames(
    slots: &mut [u16],
    reports: &mut [u64],
    line: &[u8],
    times: usize,
) -> u64
    ensures { record { digest = result; slots = slots.new; reports = reports.new } ≡ repeated (again times line.now (first cases_node slots.old reports.old)) }
{
    digests::of_outcome(repeat(cases::node(), slots, reports, line, times))
}

// To node 1 of a roster of `size` nodes, of which so many are suspected.
#[unsafe(no_mangle)]
pub extern "C" fn ukweribaso_roster_frames(
    slots: &mut [u16],
    reports: &mut [u64],
    line: &[u8],
    times: usize,
    size: u16,
    suspected: u16,
) -> u64
    ensures { record { digest = result; slots = slots.new; reports = reports.new } ≡ repeated (again times line.now (first (roster size suspected) slots.old reports.old)) }
{
    digests::of_outcome(repeat(
        rosters::roster(size, suspected),
        slots,
        reports,
        line,
        times,
    ))
}
