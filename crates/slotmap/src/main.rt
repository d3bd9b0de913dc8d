// Slot ranges that people can read out: a slot table on standard input, as it lies in memory or as text, told in words. The one
// argument is the roster's size. A fault is told on standard error, with what was expected.
#![tactic(auto)]

ghost use Rattle.std.specs.Prelude.{◌≡◌, cond, take, Some, None};
ghost use Rattle.words.specs.Numbers.{value, between};
ghost use Rattle.lines.specs.Writers.{extended};
ghost use Rattle.slotmap.specs.Table.{in_words};

use dumps::Fault;
use lines::Writer;
use std::env::Env;
use std::io;
use std::io::Read;

const SLOTS: usize = tables::SLOTS as usize;

// A list of as many ranges as there are slots, three numbers each.
const LIST: usize = 3 * SLOTS;

// Input has at most 1,048,576 bytes; there is room for one more, which is too many.
const ROOM: usize = 1048577;

// Room for what is printed: at most 60 bytes for each slot, 40 for each node and 40 more, by the laws of `aloud` and `totals`.
const TEXT: usize = 1048576;

// Room for a fault's line, and for a word that is read as a number.
const LINE: usize = 256;

const WORD: usize = 20;

// The first bytes of a buffer; all of it where it is shorter.
fn front(bytes: &[u8], end: usize) -> &[u8]
    ensures { result.now ≡ take end bytes.now }
{
    bytes.get(..end).unwrap_or(bytes)
}

// ---- faults

fn expected(err: &impl Print) {
    let text = b"usage: slotmap SIZE, with a slot table on standard input\n\
        SIZE is how many nodes the roster has, from 1 to 64\n\
        the table has 16,384 entries: as 32,768 bytes as they lie in memory, two an entry, the low byte first; \
        or as text, four hexadecimal digits an entry, with blanks and line ends wherever one likes\n";
    let _ = err.write_all(text);
}

// What is wrong, and what is expected.
fn fault(err: &impl Print, text: &[u8]) {
    let _ = err.write_all(b"slotmap: ");
    let _ = err.write_all(text);
    let _ = err.write_all(b"\n");
    expected(err);
}

// The same where a text has numbers in it, the next one for each %.
fn fault_with(err: &impl Print, text: &[u8], numbers: &[u64]) {
    let mut line = [0u8; LINE];
    let mut out = Writer {
        bytes: &mut line,
        end: 0,
    };
    phrases::put_filled(&mut out, text, numbers);
    let end = out.end;
    fault(err, front(&line, end));
}

fn wrong_digits(err: &impl Print, count: usize) {
    let text = b"this is no slot table: it has % and not 65,536 hexadecimal digits";
    fault_with(err, text, &[count as u64]);
}

// Where a byte stands: its line and its character there, both from 1 on.
#[derive(Clone, Copy)]
struct Place {
    line: usize,
    character: usize,
}

// The place behind these bytes.
fn place_behind(bytes: &[u8]) -> Place {
    let mut line: usize = 1;
    let mut character: usize = 1;
    for byte in bytes {
        character += 1;
        if *byte == b'\n' {
            line += 1;
            character = 1;
        }
    }
    Place { line, character }
}

fn odd_character(err: &impl Print, input: &[u8], at: usize) {
    let place = place_behind(front(input, at));
    let text = b"this is no slot table: it has % and not 32,768 bytes, and character % of line % \
        is neither a hexadecimal digit nor a blank";
    fault_with(
        err,
        text,
        &[
            input.len() as u64,
            place.character as u64,
            place.line as u64,
        ],
    );
}

// ---- the argument

// The roster's size that a word says.
fn size_of(word: &[u8]) -> Option<u16>
    ensures { result ≡ cond (between 1 64 (value word.now)) (Some (value word.now)) None }
{
    let size = words::number(word, b'n').ok()?;
    if !words::between(size, 1, tables::NODES as u64) {
        return None;
    }
    Some(size as u16)
}

// The roster's size, if the arguments say it.
fn roster(env: &impl Env, err: &impl Print) -> Option<u16> {
    let count = lines::argument_count(env);
    if count < 2 {
        fault(err, b"the roster's size is missing");
        return None;
    }
    if count > 2 {
        fault(err, b"there is more than one argument");
        return None;
    }
    let mut word = [0u8; WORD];
    let length = env.arg(1, &mut word).unwrap_or(0);
    let size = size_of(&word[..length]);
    if size.is_none() {
        fault(err, b"the roster's size is no number from 1 to 64");
    }
    size
}

// ---- the table

// Why not all of the input is read: a read fails, or the buffer is full.
#[derive(Clone, Copy)]
enum Unread {
    Failed(io::Error),
    TooLong,
}

// Reads all of the input, and says how many bytes it has. A turn goes on by what a read gave, so no `for` goes over the places.
fn take<R: Read>(input: &mut R, buf: &mut [u8]) -> Result<usize, Unread> {
    let mut end: usize = 0;
    while end < buf.len() {
        match input.read(&mut buf[end..]) {
            Ok(0) => return Ok(end),
            Ok(more) => end += more,
            Err(error) => return Err(Unread::Failed(error)),
        }
    }
    Err(Unread::TooLong)
}

// What is said of a table, from the front of the buffer on. The list has room for its ranges.
fn put_table(slots: &[u16; SLOTS], size: u16, list: &mut [u16; LIST], out: &mut Writer)
    ensures { out.new ≡ extended (record out.old { end = 0 }) (in_words size slots.now) }
{
    out.end = 0;
    let count = listing::list_whole(slots, size, list);
    aloud::put_listing(out, b"", aloud::front(list, count));
    totals::put_totals(out, slots, size);
}

fn print(
    to: &impl Print,
    slots: &[u16; SLOTS],
    size: u16,
    list: &mut [u16; LIST],
    out: &mut Writer,
) {
    put_table(slots, size, list, out);
    out.flush(to);
}

fn tell(to: &impl Print, err: &impl Print, input: &[u8], size: u16) {
    let mut slots = [tables::UNOWNED; SLOTS];
    let mut list = [0u16; LIST];
    let mut text = [0u8; TEXT];
    let mut out = Writer {
        bytes: &mut text,
        end: 0,
    };
    match dumps::read(input, &mut slots) {
        Ok(()) => print(to, &slots, size, &mut list, &mut out),
        Err(Fault::Odd(place)) => odd_character(err, input, place),
        Err(Fault::Digits(count)) => wrong_digits(err, count),
    }
}

// All of it, with room for the input.
fn run<R: Read>(to: &impl Print, err: &impl Print, from: &mut R, buf: &mut [u8], size: u16) {
    match take(from, buf) {
        Ok(end) => tell(to, err, front(buf, end), size),
        Err(Unread::Failed(error)) => {
            lines::fail(err, b"slotmap: the input could not be read", error);
            expected(err);
        }
        Err(Unread::TooLong) => fault(err, b"the input has more than 1,048,576 bytes"),
    }
}

fn main(rt: HostRuntime) {
    let err = rt.stderr();
    let Some(size) = roster(&rt, &err) else {
        return;
    };
    let mut buf = [0u8; ROOM];
    run(&rt, &err, &mut rt.reader(), &mut buf, size);
}
