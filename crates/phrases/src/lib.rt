// Numbers as people read them, and texts with such numbers in them.
#![tactic(auto, using(lines::proofs::Texts::puts_append))]

ghost use Rattle.std.specs.Prelude.{◌≡◌};
ghost use Rattle.lines.specs.Texts.{puts, decimal};
ghost use Rattle.lines.specs.Writers.{extended};
ghost use Rattle.phrases.specs.Phrases.{with_comma, commas, grouped, filled};

use lines::Writer;

// ---- numbers

// Adds a digit, and a comma behind it where whole groups of three follow.
fn put_digit(out: &mut Writer, digit: u8, behind: usize)
    ensures { out.new ≡ extended out.old (with_comma digit behind) }
{
    out.put(digit);
    if behind > 0 && behind % 3 == 0 {
        out.put(b',');
    }
}

// Adds digits in groups of three from the end.
fn put_digits(out: &mut Writer, digits: &[u8])
    ensures { out.new ≡ extended out.old (commas digits.now) }
{
    for (i, digit) in digits.iter().enumerate() {
        put_digit(out, *digit, digits.len() - 1 - i);
    }
}

// Writes a number in decimal to a buffer's front, and says how many digits it has there.
fn spell(bytes: &mut [u8], number: u64) -> usize
    ensures { record { bytes = bytes.new; end = result } ≡ puts (record { bytes = bytes.old; end = 0 }) (decimal number) }
{
    let mut digits = Writer { bytes, end: 0 };
    digits.put_number(number);
    digits.end
}

// Adds a number as people read it. It has at most 20 digits.
pub fn put_grouped(out: &mut Writer, number: u64)
    ensures { out.new ≡ extended out.old (grouped number) }
{
    let mut digits = [0u8; 20];
    let count = spell(&mut digits, number);
    put_digits(out, &digits[..count]);
}

// ---- texts

// A text's place for a number.
const PERCENT: u8 = b'%';

// Adds a text, with the next number for each % in it, and 0 where there is none.
pub fn put_filled(out: &mut Writer, text: &[u8], numbers: &[u64])
    ensures { out.new ≡ extended out.old (filled text.now numbers.now) }
{
    let mut left = numbers.iter();
    for byte in text {
        if *byte == PERCENT {
            put_grouped(out, left.next().copied().unwrap_or(0));
        } else {
            out.put(*byte);
        }
    }
}
