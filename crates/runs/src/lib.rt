// A run of `replay`, line by line (docs/REPLAY.md): what it has come to, what is wrong with a line, which nodes a line is about.
#![tactic(auto)]

ghost use Rattle.std.specs.Prelude.{◌≡◌, ◌≤◌};
ghost use Rattle.lines.specs.Writers.{SameRoom};
ghost use Rattle.runs.specs.Runs.{nobody, reached, answer_of, remembered, the_end};

use answers::Answer;
use calls::{Call, Form};
use lines::Writer;
use std::ops::Range;
use tellings::{Said, Told, Win, put};

// The most nodes of a roster.
pub const ROOM: usize = 16;

// How many nodes there are, 0 before the roster's line, and whether a call was made. How much of a line's piece was handed
// over, 0 if nothing is left of it, how many wins there are and which: memory is fixed, so they are an array and a count. The flag
// says of no other field whether it counts, and what is 0 for none is so in `nobody` and in what `sources` promises.
#[derive(Clone, Copy)]
pub struct Run {
    pub size: u64,
    pub begun: bool,
    pub handed: usize,
    pub won: usize,
    pub wins: [Win; tellings::WINS],
}

// Before the roster's line.
pub fn nobody() -> Run
    ensures { result ≡ nobody }
{
    Run {
        size: 0,
        begun: false,
        handed: 0,
        won: 0,
        wins: [Win { epoch: 0, node: 0 }; tellings::WINS],
    }
}

// What was told may be a win, and so much of a piece was handed over. Each node wins at most once: nothing makes a master a
// replica in its own eyes.
pub fn told(past: Run, told: Told, k: usize, handed: usize) -> Run
    ensures { result ≡ remembered (answer_of told.said) told.config k (reached handed past) }
{
    let mut run = Run { handed, ..past };
    let won = matches!(told.said, Said::Answered(Answer::Won(_)));
    if won && told.config != 0 && run.won < tellings::WINS {
        run.wins[run.won] = Win {
            epoch: told.config,
            node: k as u64,
        };
        run.won += 1;
    }
    run
}

// The call that the input's end is.
pub fn summary() -> Call
    ensures { result ≡ the_end }
{
    Call {
        form: Form::Summary,
        wrong: None,
        words: 0,
        numbers: [0; calls::WORDS],
    }
}

// ---- a line

// What is wrong with a line.
#[derive(Clone, Copy)]
enum Fault {
    NoForm,
    Unfit(usize),
    TooLong,
    NoRoster,
    Stands,
    Begun,
    NoNode(u64),
}

// Its words first, then its time, then its nodes in order.
fn fault_of(call: Call, run: Run) -> Option<Fault> {
    if let Some(word) = call.wrong {
        return Some(Fault::Unfit(word));
    }
    match call.form {
        Form::Unknown => Some(Fault::NoForm),
        Form::TooLong => Some(Fault::TooLong),
        Form::Silent | Form::Summary => None,
        Form::Roster if run.size > 0 => Some(Fault::Stands),
        Form::Roster => None,
        _ if run.size == 0 => Some(Fault::NoRoster),
        Form::Replica | Form::Timeout if run.begun => Some(Fault::Begun),
        _ => calls::stranger(call, run.size).map(Fault::NoNode),
    }
}

// A line that does not fit, or cannot be done.
fn put_fault(out: &mut Writer, count: u64, form: Form, fault: Fault)
    ensures { SameRoom out.old out.new }
{
    put(out, "% bad line, nothing done: ", &[count]);
    match fault {
        Fault::NoForm => put(out, "no call begins like that", &[]),
        Fault::Unfit(word) => {
            put(out, "word % does not fit in '", &[word as u64]);
            calls::put_form(out, form);
            put(out, "'", &[]);
        }
        Fault::TooLong => put(out, "it is too long", &[]),
        Fault::NoRoster => put(out, "there is no roster yet", &[]),
        Fault::Stands => put(out, "the roster stands already", &[]),
        Fault::Begun => put(out, "the first call was made already", &[]),
        Fault::NoNode(node) => put(out, "there is no node %", &[node]),
    }
    put(out, "\n", &[]);
}

// No more than there is room for.
fn room(n: u64) -> usize
    ensures { result ≤ 16 }
{
    ROOM.min(n as usize)
}

// One node.
fn only(k: u64) -> Range<usize>
    ensures { result.end ≤ 16 }
{
    let k = room(k);
    k..ROOM.min(k + 1)
}

// The nodes that a line is about: nobody, the whole roster, or the node that is named. A lookup is about no node by itself: it
// changes none.
fn span_of(call: Call, size: u64) -> Range<usize>
    ensures { result.end ≤ 16 }
{
    let said = call.numbers;
    match call.form {
        Form::Silent | Form::Unknown | Form::TooLong | Form::Lookup => 0..0,
        Form::Roster => 0..room(said[1]),
        Form::Replica | Form::Summary => 0..room(size),
        Form::Slots if said[5] == calls::ALL => 0..room(size),
        Form::Slots => only(said[5]),
        Form::Timeout | Form::Report | Form::Frame | Form::Piece | Form::Open => only(said[1]),
        Form::Migrate | Form::Import | Form::Unmark => only(said[1]),
        Form::Key | Form::Hexkey | Form::Ranges => only(said[1]),
    }
}

// The run after a line. A line that describes the roster, or writes its tables, is no call.
fn after(past: Run, call: Call) -> Run {
    match call.form {
        Form::Roster => Run {
            size: call.numbers[1],
            ..past
        },
        Form::Replica | Form::Timeout | Form::Slots | Form::Report => past,
        Form::Silent | Form::Unknown | Form::TooLong => past,
        _ => Run {
            begun: true,
            ..past
        },
    }
}

// A line that was heard: what is done, nothing where something is wrong with it; the nodes that it is about, and the run
// after it.
#[derive(Clone, Copy)]
pub struct Heard {
    pub call: Call,
    pub first: usize,
    pub last: usize,
    pub run: Run,
}

pub fn hear(call: Call, count: u64, run: Run, out: &mut Writer) -> Heard
    ensures within { result.last ≤ 16 }
    ensures same_room { SameRoom out.old out.new }
{
    if let Some(fault) = fault_of(call, run) {
        put_fault(out, count, call.form, fault);
        return Heard {
            call: calls::silent(),
            first: 0,
            last: 0,
            run,
        };
    }
    if call.form == Form::Summary {
        put(out, "summary\n", &[]);
    }
    let nodes = span_of(call, run.size);
    Heard {
        call,
        first: nodes.start,
        last: nodes.end,
        run: after(run, call),
    }
}
