// What a line of a run's file hands on (docs/REPLAY.md): slots given to an owner, a claimed bitmap, the node that a frame names,
// and the bytes of a key and of a feed's piece.
#![tactic(auto)]

ghost use Rattle.std.specs.Prelude.{◌≡◌, ◌<◌};
ghost use Rattle.tables.specs.Sizes.{slot_count};
ghost use Rattle.lines.specs.Texts.{puts};
ghost use Rattle.lines.specs.Writers.{extended};
ghost use Rattle.hexdigits.specs.Hex.{byte_at};
ghost use Rattle.arguments.specs.Bytes.{chosen, given, bit, nibble, digit_of, digits_below, key_bytes, handed, piece_bytes};

use lines::Writer;

// The digits of a bitmap that claims slots of a table.
const DIGITS: usize = tables::SLOTS as usize / 4;

// An entry of a table, or a value where its place is one of a range.
fn chosen(old: u16, s: usize, first: u64, last: u64, x: u16) -> u16
    ensures { result ≡ chosen first last x s old }
{
    if words::between(s as u64, first, last) {
        return x;
    }
    old
}

// A value for the entries of a table from one place to another.
pub fn give(table: &mut [u16], first: u64, last: u64, x: u16)
    ensures { table.new ≡ given first last x table.old }
{
    for s in 0..table.len() {
        table[s] = chosen(table[s], s, first, last, x);
    }
}

fn bit(table: &[u16], s: usize) -> u8
    ensures { (result ≡ bit table.now s) × (result < 2) }
{
    if s < table.len() {
        return (table[s] % 2) as u8;
    }
    0
}

fn nibble(table: &[u16], s: usize) -> u8
    requires { s < slot_count }
    ensures { (result ≡ nibble table.now s) × (result < 16) }
{
    bit(table, s) + bit(table, s + 1) * 2 + bit(table, s + 2) * 4 + bit(table, s + 3) * 8
}

// Digit j of the bitmap that has a bit for each entry of a table.
#[tactic(auto, unfolding(crate::specs::Bytes::digit_of))]
fn digit(table: &[u16], j: usize) -> u8
    requires { j < 4096 }
    ensures { result ≡ digit_of table.now j }
{
    let v = nibble(table, 8 * (j / 2) + 4 * (1 - j % 2));
    v + 48 + v / 10 * 39
}

pub fn put_digits(table: &[u16], out: &mut Writer)
    ensures { out.new ≡ extended out.old (digits_below table.now 4096) }
{
    for j in 0..DIGITS {
        out.put(digit(table, j));
    }
}

// The node that a frame names, its sender or its candidate: the second byte.
pub fn named(frame: &[u8]) -> u8
    ensures { result ≡ byte_at frame.now 1 }
{
    hexdigits::byte_at(frame, 1)
}

fn put_key(digits: &[u8], out: &mut Writer)
    ensures { out.new ≡ extended out.old (key_bytes digits.now) }
{
    for i in 0..digits.len() / 2 {
        out.put(hexdigits::byte_at(digits, i));
    }
}

// The bytes of a key that is given in hexadecimal, from the front of a buffer on. A function that is lent what to write, for this
// one and `piece`, would be longer than both.
pub fn key(digits: &[u8], out: &mut [u8]) -> usize
    ensures { record { bytes = out.new; end = result } ≡ puts (record { bytes = out.old; end = 0 }) (key_bytes digits.now) }
{
    let mut text = Writer { bytes: out, end: 0 };
    put_key(digits, &mut text);
    text.end
}

// A character of a piece: a `/` stands for a newline.
fn handed(character: u8) -> u8
    ensures { result ≡ handed character }
{
    if character == b'/' {
        return b'\n';
    }
    character
}

fn put_piece(word: &[u8], out: &mut Writer)
    ensures { out.new ≡ extended out.old (piece_bytes word.now) }
{
    for character in word {
        out.put(handed(*character));
    }
}

// The bytes of a piece of a feed, from the front of a buffer on.
pub fn piece(word: &[u8], out: &mut [u8]) -> usize
    ensures { record { bytes = out.new; end = result } ≡ puts (record { bytes = out.old; end = 0 }) (piece_bytes word.now) }
{
    let mut text = Writer { bytes: out, end: 0 };
    put_piece(word, &mut text);
    text.end
}
