// The morning after: runs the calls that files list on a whole roster, and says what each node answered.
// docs/REPLAY.md has the format. Each file is a run of its own; without a file the run is read from standard input.
#![tactic(auto)]

use acts::Done;
use answers::Answer;
use calls::{Call, Form};
use lines::Writer;
use runs::Run;
use seats::Seat;
use sources::Source;
use state::{Election, Node};
use std::env::{Env, FillError};
use std::fs::File;
use std::io::Read;
use std::os::fd::AsRawFd;
use std::{io, str};
use tellings::{Said, Told};

// The most nodes of a roster.
const ROOM: usize = runs::ROOM;

// Entries of a node's slot table and of its report times, and of all nodes'.
const SLOTS: usize = tables::SLOTS as usize;

const REPORTS: usize = tables::REPORTS;

const ALL_SLOTS: usize = ROOM * SLOTS;

const ALL_REPORTS: usize = ROOM * REPORTS;

// Input is read in pieces of up to this length.
const PIECE: usize = 65536;

// Numbers of the list that ranges are written to: three for each slot are enough for every table.
const LIST: usize = 3 * SLOTS;

// What is told is written when it has come to FULL bytes. The account of a line has at most some 3,000, and below it a listing at
// most 62 for each slot, by a law of `aloud`.
const TEXT: usize = 1114112;

const FULL: usize = 57344;

// The longest path of a file.
const PATH: usize = 4096;

// ---- a line, done and told

// The election that a call opened.
fn opening(form: Form, said: Said, node: Node) -> Option<Election> {
    match (form, said) {
        (Form::Open, Said::Answered(Answer::Done)) => node.election,
        _ => None,
    }
}

// What is told of node k, from the node before and after a line.
fn telling(count: u64, k: usize, before: Node, done: Done, form: Form) -> Told {
    let node = done.seat.node;
    Told {
        line: count,
        node: k as u64,
        said: done.said,
        current: node.current,
        voted: node.voted,
        config: seats::own(node).config,
        named: u64::from(done.named),
        election: opening(form, done.said, node),
        before: seats::flags(before),
        after: seats::flags(node),
    }
}

// A listing, below its answer.
fn put_listing(out: &mut Writer, list: &[u16], said: Said) {
    if let Said::Answered(Answer::Listed(count)) = said {
        aloud::put_listing(out, b"  ", aloud::front(list, count));
    }
}

// The node after a line, and the run.
#[derive(Clone, Copy)]
struct Turn {
    seat: Seat,
    run: Run,
}

// A line, done to node k and told.
fn take_turn(
    seat: Seat,
    slots: &mut [u16],
    reports: &mut [u64],
    list: &mut [u16],
    out: &mut Writer,
    k: usize,
    source: Source,
    call: Call,
    run: Run,
) -> Turn {
    let kept = source.kept;
    let line = sources::characters(&kept.bytes, kept.length);
    let done = acts::act(seat, slots, reports, list, k, line, call, run.handed);
    let told = telling(source.count, k, seat.node, done, call.form);
    tellings::put_told(out, told);
    put_listing(out, list, done.said);
    Turn {
        seat: done.seat,
        run: runs::told(run, told, k, done.handed),
    }
}

// ---- a run

// The call of a line; none where there is more to read.
fn call_of(source: Source) -> Call {
    let kept = source.kept;
    if source.ended {
        return runs::summary();
    }
    if !source.found {
        return calls::silent();
    }
    if kept.length > scraps::ROOM {
        return calls::too_long();
    }
    calls::read(sources::characters(&kept.bytes, kept.length))
}

// The lines of a run, and its summary. The nodes and their tables stand here, and each line takes out those that it is about; a
// lookup goes over all of them, and changes the gateway's map and its epochs alone. The list is lent to each as it is: what is
// read of it was written by the same line. A proved loop has to end, and nothing says that the input does, so it counts up to a
// number that no run comes to.
fn play_lines<R: Read>(
    to: &impl Print,
    err: &impl Print,
    input: &mut R,
    begin: Source,
    buf: &mut [u8],
    list: &mut [u16],
    map: &mut [u16],
    epochs: &mut [u64],
    out: &mut Writer,
) {
    let mut slots = [tables::UNOWNED; ALL_SLOTS];
    let mut times = [0u64; ALL_REPORTS];
    let mut seats = [seats::newcomer(0, 0); ROOM];
    let mut run = runs::nobody();
    let mut source = begin;
    for _ in 0..u64::MAX {
        out.drain(to, FULL);
        source = sources::next_line(input, err, buf, source, run.handed);
        let heard = runs::hear(call_of(source), source.count, run, out);
        let call = heard.call;
        run = heard.run;
        for k in heard.first..heard.last {
            let slots = &mut slots[k * SLOTS..(k + 1) * SLOTS];
            let times = &mut times[k * REPORTS..(k + 1) * REPORTS];
            let turn = take_turn(seats[k], slots, times, list, out, k, source, call, run);
            seats[k] = turn.seat;
            run = turn.run;
        }
        if call.form == Form::Lookup {
            walks::look_up(map, epochs, run.size, seats, &slots, source, call, out);
        }
        if source.ended {
            break;
        }
    }
    tellings::put_wins(out, &run.wins, run.won);
    out.flush(to);
}

// A run. The list, the gateway's map, which has no entry yet, the epochs beside its entries, and the room for what is told stand
// here: in the function with the loop every step of its proof would compute with their lengths.
fn play<R: Read>(to: &impl Print, err: &impl Print, input: &mut R, begin: Source, buf: &mut [u8]) {
    let mut list = [0u16; LIST];
    let mut map = [tables::UNOWNED; SLOTS];
    let mut epochs = [0u64; SLOTS];
    let mut text = [0u8; TEXT];
    let mut out = Writer {
        bytes: &mut text,
        end: 0,
    };
    play_lines(
        to,
        err,
        input,
        begin,
        buf,
        &mut list,
        &mut map,
        &mut epochs,
        &mut out,
    );
}

// ---- files

fn put_name(to: &impl Print, path: &[u8], first: bool) {
    if !first {
        let _ = to.write_all(b"\n");
    }
    let _ = to.write_all(b"run ");
    let _ = to.write_all(path);
    let _ = to.write_all(b"\n");
}

// Why an argument could not be taken over.
fn unfilled(error: FillError) -> io::Error {
    match error {
        FillError::TooLong => io::Error::new(io::ErrorKind::InvalidFilename, "File name too long"),
        FillError::NotPresent => io::Error::new(io::ErrorKind::InvalidInput, "Invalid argument"),
    }
}

// A path is text here, so one that is none opens no file.
fn open(rt: &HostRuntime, path: &[u8]) -> io::Result<File> {
    match str::from_utf8(path) {
        Ok(path) => File::open(rt, path),
        Err(_) => Err(io::Error::new(io::ErrorKind::InvalidFilename, "File name is not UTF-8")),
    }
}

// A file with what is read of it first.
fn begun(rt: &HostRuntime, path: &[u8], buf: &mut [u8]) -> io::Result<(File, usize)> {
    let mut file = open(rt, path)?;
    let got = file.read(buf)?;
    Ok((file, got))
}

// The run of the file that an argument names, under its name, with an empty line between it and the one before. A file that
// cannot be read is named with the reason, and nothing else is said of it. Says whether a run is still the first.
fn argument(rt: &HostRuntime, i: usize, first: bool) -> bool {
    let err = rt.stderr();
    let mut room = [0u8; PATH];
    let length = match rt.arg(i, &mut room) {
        Ok(length) => length,
        Err(error) => {
            lines::fail(&err, b"argument", unfilled(error));
            return first;
        }
    };
    let path = sources::part(&room, 0, length);
    let mut buf = [0u8; PIECE];
    match begun(rt, path, &mut buf) {
        Err(error) => {
            lines::fail(&err, path, error);
            first
        }
        Ok((mut file, got)) => {
            put_name(rt, path, first);
            let begin = sources::opened(file.as_raw_fd(), got);
            play(rt, &err, &mut file, begin, &mut buf);
            false
        }
    }
}

fn main(rt: HostRuntime) {
    let count = lines::argument_count(&rt);
    let mut first = true;
    for i in 1..count {
        first = argument(&rt, i, first);
    }
    if count < 2 {
        let begin = sources::opened(rt.stdin().as_raw_fd(), 0);
        let mut buf = [0u8; PIECE];
        play(&rt, &rt.stderr(), &mut rt.reader(), begin, &mut buf);
    }
}
