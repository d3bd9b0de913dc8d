// The key that a line of hexadecimal spells, and its slot.
#![tactic(auto)]

ghost use Rattle.std.specs.Prelude.{◌≡◌};
ghost use Rattle.spelling.specs.Lines.{digit_of, read, left, Within, reply_of};

// The value of a digit, or 16: the definition's, which is no Option.
#[tactic(auto, unfolding(crate::specs::Lines::digit_of))]
fn digit(c: u8) -> u8
    ensures { result ≡ digit_of c }
{
    match c {
        b'0'..=b'9' => c - b'0',
        b'a'..=b'f' => c - b'a' + 10,
        _ => 16,
    }
}

// Puts the key that the line spells in the line's place, from its start on.
fn decode(line: &mut [u8]) -> Option<usize>
    ensures { (left result line.new ≡ read line.old) × Within result line.new }
{
    let count = line.len() / 2;
    for n in 0..count {
        let high = digit(line[2 * n]);
        let low = digit(line[2 * n + 1]);
        if high > 15 || low > 15 {
            return None;
        }
        line[n] = high * 16 + low;
    }
    if line.len() % 2 == 1 {
        return None;
    }
    Some(count)
}

// The answer to a line.
pub fn slot_of(line: &mut [u8]) -> Option<u16>
    ensures { result ≡ reply_of (read line.old) }
{
    let n = decode(line)?;
    Some(slots::key_slot(&line[..n]))
}
