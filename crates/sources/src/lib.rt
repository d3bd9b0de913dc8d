// The lines of a run's file, which is read in pieces: docs/REPLAY.md.
#![tactic(auto)]

ghost use Rattle.std.specs.Prelude.{◌≡◌, true, false, cond, [], ◌<◌};
ghost use Rattle.scraps.specs.Scraps.{short, part_of};
ghost use Rattle.sources.specs.Sources.{further, next, between, so_far, read_as, takes_on, in_buffer, continues, closes};

use scraps::Kept;
use std::io::Read;

// Where lines are read from, and the next one. The characters are there whether a line was found or not, so the flags are no
// Options.
#[derive(Clone, Copy)]
pub struct Source {
    // The file's descriptor. Its bytes come from a reader, which `next_line` is given.
    pub fd: i32,
    // The line, if one was found; else what is kept of it, and there is more to read.
    pub found: bool,
    pub kept: Kept,
    // Where the rest of the buffer starts, and where what was read ends.
    pub rest: usize,
    pub end: usize,
    // How many lines there were.
    pub count: u64,
    // The input has ended, and then all its lines were found.
    pub closed: bool,
    pub ended: bool,
}

// A buffer whose first bytes were read already.
pub fn opened(fd: i32, end: usize) -> Source
    ensures { (read_as result ≡ record { line = short []; found = false; rest = 0; count = 0 }) × (result.end ≡ end) }
{
    Source {
        fd,
        found: false,
        kept: scraps::none(),
        rest: 0,
        end,
        count: 0,
        closed: false,
        ended: false,
    }
}

// One more; a file with more lines than can be counted is numbered from 0 again.
fn next(count: u64) -> u64
    ensures { result ≡ next count }
{
    count.wrapping_add(1)
}

// A place so much further on.
pub fn further(place: usize, used: usize) -> usize
    ensures { result ≡ further place used }
{
    place.saturating_add(used)
}

// What is kept of the line so far: nothing where the last one has ended.
fn begun(past: Source) -> Kept
    ensures { part_of result ≡ so_far past.found (part_of past.kept) }
{
    if past.found {
        return scraps::none();
    }
    past.kept
}

// How many lines there were, with one that may have ended.
fn counted(count: u64, ended: bool) -> u64
    ensures { result ≡ cond ended (next count) count }
{
    if ended {
        return next(count);
    }
    count
}

// The line with what the rest of the buffer has of it.
fn taken(past: Source, rest: &[u8]) -> Source
    ensures { read_as result ≡ takes_on (read_as past) rest.now }
{
    let gathered = scraps::gather(begun(past), rest);
    Source {
        found: gathered.ended,
        kept: gathered.kept,
        rest: further(past.rest, gathered.used),
        count: counted(past.count, gathered.ended),
        ..past
    }
}

// Nothing more comes. A last line without a newline is a line too.
fn close(past: Source) -> Source
    ensures { result ≡ closes past }
{
    if past.kept.length == 0 {
        return Source {
            closed: true,
            ended: true,
            ..past
        };
    }
    Source {
        closed: true,
        found: true,
        count: next(past.count),
        ..past
    }
}

// Reads once. Where reading fails the reason is named, and what came before it counts.
// What is kept of the line stays: the buffer is written over, so it stands nowhere else.
fn more<R: Read>(input: &mut R, err: &impl Print, buf: &mut [u8], past: Source) -> Source
    ensures { part_of result.kept ≡ part_of past.kept }
{
    let here = Source {
        rest: 0,
        end: 0,
        ..past
    };
    if past.closed {
        return Source {
            ended: true,
            ..here
        };
    }
    match input.read(buf) {
        Err(error) => {
            lines::fail(err, b"reading", error);
            close(here)
        }
        Ok(0) => close(here),
        Ok(got) => Source { end: got, ..here },
    }
}

// The next line, or what is read once to find it: then what the buffer had of the line is kept.
// A line of which some was handed over is the next one again.
pub fn next_line<R: Read>(
    input: &mut R,
    err: &impl Print,
    buf: &mut [u8],
    past: Source,
    handed: usize,
) -> Source
    ensures { (0 < handed → result ≡ past) × (handed ≡ 0 → continues (in_buffer past buf.old) (read_as result)) }
{
    if handed > 0 {
        return past;
    }
    let here = taken(past, part(buf, past.rest, past.end));
    if here.found {
        return here;
    }
    more(input, err, buf, here)
}

// What stands between two places of the buffer.
pub fn part(buf: &[u8], from: usize, to: usize) -> &[u8]
    ensures { result.now ≡ between buf.now from to }
{
    buf.get(from..to).unwrap_or(&[])
}

// The characters that are kept of a line; none of one that is too long.
pub fn characters(bytes: &[u8; scraps::ROOM], length: usize) -> &[u8]
    ensures { result.now ≡ between bytes.now 0 length }
{
    part(bytes, 0, length)
}
