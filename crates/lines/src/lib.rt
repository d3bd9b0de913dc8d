// Lines of a text that comes in pieces, and numbers written behind a text: what the programs share.
#![tactic(auto)]

ghost use Rattle.std.specs.Prelude.{◌≡◌, false, [], ◌∷◌};
ghost use Rattle.lines.specs.Lines.{line_end, unfinished, Kept};
ghost use Rattle.lines.specs.Texts.{decimal, drained};
ghost use Rattle.lines.specs.Writers.{extended};

use std::env::{Env, FillError};
use std::fmt::InlineText;
use std::io::Error;

// Where the next newline stands, from a place on and before an end.
pub fn line_end(buf: &[u8], from: usize, end: usize) -> Option<usize>
    ensures { result ≡ line_end buf.now from end }
{
    let k = tables::first_byte(buf.get(from..end)?, b'\n')?;
    Some(from + k)
}

// Moves what is kept of the line that starts at `from` to the buffer's front, and says how many bytes that is: none of a
// line that ends past the buffer, and no number for one that is too long, so that its beginning was let go.
pub fn unfinished(buf: &mut [u8], from: usize, end: usize, lost: bool) -> Option<usize>
    ensures { record { rest = result; buf = buf.new } ≡ unfinished buf.old from end lost }
{
    if lost {
        return None;
    }
    if from > end || end > buf.len() {
        return Some(0);
    }
    buf.copy_within(from..end, 0);
    Some(end - from)
}

// A text at the front of a lent buffer: what is written goes behind its first `end` bytes.
#[derive(Drop)]
pub struct Writer<'a> {
    pub bytes: &'a mut [u8],
    pub end: usize,
}

impl<'a> Writer<'a> {
    // Adds a byte; a full buffer stays as it is.
    pub fn put(&mut self, byte: u8)
        ensures { self.new ≡ extended self.old (byte ∷ []) }
    {
        if self.end < self.bytes.len() {
            self.bytes[self.end] = byte;
            self.end += 1;
        }
    }

    // Adds a text.
    pub fn put_text(&mut self, text: &[u8])
        ensures { self.new ≡ extended self.old text.now }
    {
        for byte in text {
            self.put(*byte);
        }
    }

    // Adds a number in decimal.
    pub fn put_number(&mut self, number: u64)
        ensures { self.new ≡ extended self.old (decimal number) }
    {
        let mut digits = [0u8; 20];
        let count = io::decimal(number, &mut digits);
        self.put_text(&digits[..count]);
    }

    // Writes the text to standard output. A write that fails goes unnoticed.
    fn print(&self, rt: &impl Print) {
        if self.end <= self.bytes.len() {
            let _ = rt.write_all(&self.bytes[..self.end]);
        }
    }

    // Writes the text to standard output, and begins a new one.
    pub fn flush(&mut self, rt: &impl Print)
        ensures { self.new ≡ record self.old { end = 0 } }
    {
        self.print(rt);
        self.end = 0;
    }

    // Writes the text if it has come to a length.
    pub fn drain(&mut self, rt: &impl Print, most: usize)
        ensures { self.new ≡ record self.old { end = drained most self.old.end } }
    {
        if self.end < most {
            return;
        }
        self.flush(rt);
    }
}

// An error's text without the number that std puts behind it.
fn reason(text: &str) -> &[u8] {
    match text.find(" (os error ") {
        Some(end) => &text.as_bytes()[..end],
        None => text.as_bytes(),
    }
}

// Writes a line: what failed, as the caller names it, a colon and the reason. A write that fails goes unnoticed.
pub fn fail(to: &impl Print, what: &[u8], error: Error) {
    let text = InlineText::<256>::of(error);
    let _ = to.write_all(what);
    let _ = to.write_all(b": ");
    let _ = to.write_all(reason(text.as_str()));
    let _ = to.write_all(b"\n");
}

// How many arguments the program was started with, its own name among them.
pub fn argument_count(env: &impl Env) -> usize {
    let mut none = [0u8; 0];
    for i in 0..usize::MAX {
        if let Err(FillError::NotPresent) = env.arg(i, &mut none) {
            return i;
        }
    }
    usize::MAX
}
