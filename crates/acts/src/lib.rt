// What a line of `replay`'s file does to a node of the run (docs/REPLAY.md), by its form: the roster's lines and what the old code
// writes into the tables, frames and pieces of a feed, openings, marks, keys, listings, and the node's line of the summary.
#![tactic(auto)]

ghost use Rattle.std.specs.Prelude.{◌≤◌, length};

use calls::{Call, Form, WORDS};
use lines::Writer;
use scraps::Kept;
use seats::Seat;
use state::{Move, Node, Outcome};
use tellings::Said;

// What a line came to: the node after it, what is said of it, the node that a frame names, and how much of a piece was handed
// over, 0 if nothing is left.
#[derive(Clone, Copy)]
pub struct Done {
    pub seat: Seat,
    pub said: Said,
    pub named: u8,
    pub handed: usize,
}

fn finished(seat: Seat, said: Said) -> Done {
    Done {
        seat,
        said,
        named: 0,
        handed: 0,
    }
}

fn answered(seat: Seat, outcome: Outcome) -> Done {
    finished(
        seats::seated(outcome.node, seat),
        Said::Answered(outcome.answer),
    )
}

// ---- what a line writes

// A node of the roster, before anything is known of it.
fn begin(said: [u64; WORDS], k: usize) -> Done {
    finished(seats::newcomer(said[1], k), Said::Nothing)
}

fn listed(seat: Seat, node: Node) -> Done {
    finished(seats::seated(node, seat), Said::Nothing)
}

fn do_replica(seat: Seat, said: [u64; WORDS]) -> Done {
    listed(seat, seats::follow(seat.node, said[1], said[3]))
}

fn do_timeout(seat: Seat, said: [u64; WORDS]) -> Done {
    listed(seat, seats::wait(seat.node, said[2]))
}

// Entries of its slot table.
fn give(seat: Seat, slots: &mut [u16], line: &[u8], owner: u64) -> Done {
    let range = calls::word(line, 1);
    arguments::give(
        slots,
        words::first_slot(range),
        words::last_slot(range),
        seats::short(owner),
    );
    finished(seat, Said::Nothing)
}

// An entry of its report times, kept as one more: 0 is none.
fn stamp(seat: Seat, reports: &mut [u64], said: [u64; WORDS]) -> Done {
    let subject = said[2] as usize % tables::NODES;
    let reporter = said[3] as usize % tables::NODES;
    if let Some(entry) = reports.get_mut(subject * tables::NODES + reporter) {
        *entry = words::kept(said[4]);
    }
    finished(seat, Said::Nothing)
}

// ---- calls

fn do_frame(seat: Seat, slots: &mut [u16], reports: &mut [u64], line: &[u8]) -> Done {
    let mut room = [0u8; 8192];
    let mut text = Writer {
        bytes: &mut room,
        end: 0,
    };
    calls::frame(line, &mut text);
    let end = text.end;
    let frame = sources::part(&room, 0, end);
    let mut done = answered(seat, node::frame(seat.node, slots, reports, frame));
    done.named = arguments::named(frame);
    done
}

// The node that a line of a feed names, if the line ends in this piece.
fn named_in(kept: Kept, piece: &[u8]) -> u8 {
    let line = scraps::gather(kept, piece).kept;
    arguments::named(sources::characters(&line.bytes, line.length))
}

// How much of a piece was handed over: 0 if nothing is left of it.
fn handed_to(place: usize, length: usize) -> usize {
    if place < length { place } else { 0 }
}

// A piece of a feed, from where the last call has left it.
fn do_piece(
    seat: Seat,
    slots: &mut [u16],
    reports: &mut [u64],
    line: &[u8],
    handed: usize,
) -> Done {
    let mut room = [0u8; scraps::ROOM];
    let end = arguments::piece(calls::word(line, 2), &mut room);
    let piece = sources::part(&room, handed, end);
    let fed = feed::feed(seat.node, slots, reports, seat.kept, piece);
    let node = fed.node;
    let kept = fed.kept;
    Done {
        seat: Seat { node, kept },
        said: match fed.told {
            None => Said::Unended(kept.length),
            Some(answer) => Said::Answered(answer),
        },
        named: named_in(seat.kept, piece),
        handed: handed_to(sources::further(handed, fed.used), end),
    }
}

fn do_open(seat: Seat, slots: &[u16], said: [u64; WORDS]) -> Done {
    answered(seat, node::open_election(seat.node, slots, said[2]))
}

fn do_unmark(seat: Seat, said: [u64; WORDS]) -> Done {
    answered(seat, node::clear_mark(seat.node, seats::short(said[2])))
}

fn do_mark(seat: Seat, slots: &[u16], said: [u64; WORDS], movement: Move) -> Done {
    let slot = seats::short(said[2]);
    answered(seat, node::set_mark(seat.node, slots, slot, movement))
}

// Where a key is asked for the node stays as it is. It stands at place 2, and behind it whether the node has it, and whether
// ASKING came first.
fn do_key(seat: Seat, slots: &[u16], key: &[u8], said: [u64; WORDS]) -> Done {
    let present = said[3] == 1;
    let asking = said[4] == 1;
    finished(
        seat,
        Said::Sent(routing::route(seat.node, slots, key, present, asking)),
    )
}

fn do_hexkey(seat: Seat, slots: &[u16], digits: &[u8], said: [u64; WORDS]) -> Done {
    let mut room = [0u8; scraps::ROOM];
    let end = arguments::key(digits, &mut room);
    do_key(seat, slots, sources::part(&room, 0, end), said)
}

// How much of a list is lent: all of it, or the numbers that there is said to be room for.
fn lent(list: &[u16], call: Call) -> usize
    ensures { result ≤ length list.now }
{
    if call.words > 2 {
        return list.len().min(call.numbers[2] as usize);
    }
    list.len()
}

// Its slot table is listed, into the list's front.
fn do_ranges(seat: Seat, slots: &[u16], list: &mut [u16], call: Call) -> Done {
    let room = lent(list, call);
    let answer = ranges::ranges(seat.node, slots, &mut list[..room]);
    finished(seat, Said::Answered(answer))
}

// A node at the end, and how many slots it owns.
fn last_seen(seat: Seat, slots: &[u16], k: usize) -> Done {
    let role = seats::own(seat.node).role;
    let slots = totals::owned(slots, seats::short(k as u64));
    finished(seat, Said::Last { role, slots })
}

// ---- a line, done

// What a line does to node k, whose tables are lent, and a list for the ranges of its slots. A lookup is no node's: it is done
// where all nodes are. Each form is done in a function of its own: what one function lays out, for whichever form, is cleared
// for every line.
pub fn act(
    seat: Seat,
    slots: &mut [u16],
    reports: &mut [u64],
    list: &mut [u16],
    k: usize,
    line: &[u8],
    call: Call,
    handed: usize,
) -> Done {
    let said = call.numbers;
    match call.form {
        Form::Roster => begin(said, k),
        Form::Replica => do_replica(seat, said),
        Form::Timeout => do_timeout(seat, said),
        Form::Slots => give(seat, slots, line, said[3]),
        Form::Report => stamp(seat, reports, said),
        Form::Frame => do_frame(seat, slots, reports, line),
        Form::Piece => do_piece(seat, slots, reports, line, handed),
        Form::Open => do_open(seat, slots, said),
        Form::Migrate => do_mark(seat, slots, said, Move::Migrating(seats::small(said[4]))),
        Form::Import => do_mark(seat, slots, said, Move::Importing(seats::small(said[4]))),
        Form::Unmark => do_unmark(seat, said),
        Form::Key => do_key(seat, slots, calls::word(line, 2), said),
        Form::Hexkey => do_hexkey(seat, slots, calls::word(line, 2), said),
        Form::Ranges => do_ranges(seat, slots, list, call),
        Form::Summary => last_seen(seat, slots, k),
        Form::Lookup | Form::Unknown | Form::Silent | Form::TooLong => finished(
            seat,
            Said::Nothing,
        ),
    }
}
