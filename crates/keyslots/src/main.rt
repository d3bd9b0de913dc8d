// The slot of each key on standard input: a key a line, in lowercase hexadecimal, answered by its slot or by `bad`.
#![tactic(auto)]

use lines::Writer;
use std::io::Read;

// A line is read whole, so it has a limit: 131,072 digits, a key of 65,536 bytes, and the newline.
const ROOM: usize = 131073;

// Answers are written when they have come to FULL bytes: a line of them has at most 6.
const TEXT: usize = 65536;

const FULL: usize = 65530;

// The answer to the line that stands between two places of the buffer. One that is too long is no key.
fn answer_at(buf: &mut [u8], from: usize, to: usize, lost: bool) -> Option<u16> {
    if lost {
        return None;
    }
    spelling::slot_of(buf.get_mut(from..to)?)
}

// Adds an answer's line.
fn put_reply(out: &mut Writer, reply: Option<u16>) {
    match reply {
        Some(slot) => out.put_number(u64::from(slot)),
        None => out.put_text(b"bad"),
    }
    out.put(b'\n');
}

// Answers every line that ends before `end`, and says what is kept of the next; what was looked through already ends at
// `seen`.
fn answer_lines(
    rt: &impl Print,
    buf: &mut [u8],
    out: &mut Writer,
    seen: usize,
    end: usize,
    lost: bool,
) -> Option<usize> {
    let mut from: usize = 0;
    let mut look = seen;
    let mut skip = lost;
    while let Some(stop) = lines::line_end(buf, look, end) {
        put_reply(out, answer_at(buf, from, stop, skip));
        out.drain(rt, FULL);
        from = stop + 1;
        look = stop + 1;
        skip = false;
    }
    out.flush(rt);
    lines::unfinished(buf, from, end, skip)
}

// Reads once behind what is kept, and answers the lines that are whole; None where the input has ended. A buffer that is
// full of one line lets it go.
fn turn<R: Read>(
    rt: &impl Print,
    input: &mut R,
    buf: &mut [u8],
    out: &mut Writer,
    rest: Option<usize>,
) -> Option<Option<usize>> {
    let kept = rest.unwrap_or(0);
    if kept >= buf.len() {
        return Some(None);
    }
    let n = input.read(&mut buf[kept..]).unwrap_or(0);
    if n == 0 {
        return None;
    }
    Some(answer_lines(rt, buf, out, kept, kept + n, rest.is_none()))
}

// A proved loop has to end, and nothing says that the input does, so it takes as many turns as no run uses up. Between two
// reads it holds how much is kept of the line that has not ended yet, and None of one that is too long.
fn run<R: Read>(rt: &impl Print, input: &mut R, buf: &mut [u8], out: &mut Writer) {
    let mut rest = Some(0);
    for _ in 0..u64::MAX {
        let Some(left) = turn(rt, input, buf, out, rest) else {
            return;
        };
        rest = left;
    }
}

fn main(rt: HostRuntime) {
    let mut buf = [0u8; ROOM];
    let mut text = [0u8; TEXT];
    let mut out = Writer {
        bytes: &mut text,
        end: 0,
    };
    run(&rt, &mut rt.reader(), &mut buf, &mut out);
}
