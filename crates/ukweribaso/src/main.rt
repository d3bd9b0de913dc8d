// The node of document 01's cases: a frame a line on standard input, in lowercase hexadecimal, and for each line the
// answer, currentEpoch and lastVoteEpoch on standard output. The input is fed in pieces, as they are read.
#![tactic(auto)]

ghost use Rattle.std.specs.Prelude.{◌≡◌, take, unwrap_or};
ghost use Rattle.std.specs.Result.{result_unwrap_or};
ghost use Rattle.feed.specs.Feed.{station};
ghost use Rattle.streams.specs.Streams.{stream};

use lines::Writer;
use scraps::Kept;
use state::Node;
use std::io;
use std::io::Read;

// Entries of the slot table.
const SLOTS: usize = tables::SLOTS as usize;

// Input is read in pieces of up to this length.
const PIECE: usize = 65536;

// Answers are written when they have come to FULL bytes: a line of them has at most 46.
const TEXT: usize = 65536;

const FULL: usize = 65490;

// Between two reads: the node, and what is kept of the line that has not ended yet.
#[derive(Clone, Copy)]
struct Held {
    node: Node,
    kept: Kept,
}

// Answers every line that ends in the piece, and leaves what its bytes leave one by one. An answer uses its line up, so
// that nothing is kept then; to say so here saves copying back what a call leaves.
fn answer_lines(
    rt: &impl Print,
    held: Held,
    slots: &mut [u16],
    reports: &mut [u64],
    piece: &[u8],
    out: &mut Writer,
) -> Held
    ensures { station result.node slots.new reports.new result.kept ≡ (stream (station held.node slots.old reports.old held.kept) piece.now).after }
{
    let mut here = held.node;
    let mut rest = held.kept;
    let mut from: usize = 0;
    loop {
        let fed = feed::feed(here, slots, reports, rest, &piece[from..]);
        here = fed.node;
        let Some(answer) = fed.told else {
            out.flush(rt);
            return Held {
                node: here,
                kept: fed.kept,
            };
        };
        rest.length = 0;
        from += fed.used;
        printing::put_answer(out, answer, here.current, here.voted);
        out.drain(rt, FULL);
    }
}

// Feeds the node what was read: as many bytes of the buffer as the read answered. Where it failed, or the input has ended, there
// are none, and nothing is held on to.
fn take_in(
    rt: &impl Print,
    held: Held,
    slots: &mut [u16],
    reports: &mut [u64],
    buf: &[u8],
    got: io::Result<usize>,
    out: &mut Writer,
) -> Option<Held>
    ensures { station (unwrap_or result held).node slots.new reports.new (unwrap_or result held).kept ≡ (stream (station held.node slots.old reports.old held.kept) (take (result_unwrap_or got 0) buf.now)).after }
{
    let count = got.unwrap_or(0);
    if count == 0 {
        return None;
    }
    let read = buf.get(..count).unwrap_or(buf);
    Some(answer_lines(rt, held, slots, reports, read, out))
}

// Reads until the input ends or a read fails. A proved loop has to end, and nothing says that the input does, so it counts up to a
// number that no run reaches.
fn run<R: Read>(
    rt: &impl Print,
    input: &mut R,
    slots: &mut [u16],
    reports: &mut [u64],
    buf: &mut [u8],
    out: &mut Writer,
) {
    let mut held = Held {
        node: cases::node(),
        kept: scraps::none(),
    };
    for _ in 0..u64::MAX {
        let got = input.read(buf);
        let Some(next) = take_in(rt, held, slots, reports, buf, got, out) else {
            return;
        };
        held = next;
    }
}

fn main(rt: HostRuntime) {
    let mut slots = [tables::UNOWNED; SLOTS];
    let mut reports = [0u64; tables::REPORTS];
    let mut buf = [0u8; PIECE];
    let mut text = [0u8; TEXT];
    let mut out = Writer {
        bytes: &mut text,
        end: 0,
    };
    run(
        &rt,
        &mut rt.reader(),
        &mut slots,
        &mut reports,
        &mut buf,
        &mut out,
    );
}
