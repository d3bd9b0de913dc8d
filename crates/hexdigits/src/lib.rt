// Lowercase hexadecimal: the digits, bytes and numbers of a line, read.
#![tactic(auto)]

ghost use Rattle.std.specs.Prelude.{◌≡◌, ◌+◌, ◌<◌, get_or};
ghost use Rattle.hexdigits.specs.Hex.{is_digit, digit, all_digits, byte_at, number_at};

// As a pattern it is slower, measured: bytes read one by one take half as long again.
#[tactic(auto, unfolding(crate::specs::Hex::is_digit))]
pub fn is_digit(c: u8) -> bool
    ensures { result ≡ is_digit c }
{
    if c < 48 {
        return false;
    }
    if c < 58 {
        return true;
    }
    if c < 97 {
        return false;
    }
    c < 103
}

// The value of a digit, 0 for any other character. 0 to 9 are 48 to 57, a to f are 97 to 102; one sum gives both without
// a branch.
#[tactic(auto, using(crate::proofs::Digits::digit_lt, crate::proofs::Digits::by_sum, crate::proofs::Digits::no_digit))]
pub fn value(c: u8) -> u8
    ensures { (result ≡ digit c) × (result < 16) }
{
    if is_digit(c) {
        return c % 16 + c / 64 * 9;
    }
    0
}

// Each character is looked at, also after one that is no digit: with no way out of the loop, many are looked at at once.
pub fn all_digits(line: &[u8]) -> bool
    ensures { result ≡ all_digits line.now }
{
    let mut good = true;
    for &c in line {
        good &= is_digit(c);
    }
    good
}

// The value of the character at place k, 0 past the end.
#[tactic(auto, unfolding(crate::specs::Hex::digit))]
pub fn digit_at(line: &[u8], k: usize) -> u8
    ensures { (result ≡ digit (get_or line.now k 0)) × (result < 16) }
{
    line.get(k).map_or(0, |&c| value(c))
}

// The byte k places after place i of a line; no sum wraps, since past the line's end the byte is 0.
#[tactic(auto, using(crate::proofs::Bytes::byte_past), unfolding(crate::specs::Hex::byte_at))]
pub fn byte_after(line: &[u8], i: usize, k: usize) -> u8
    ensures { result ≡ byte_at line.now (i + k) }
{
    let last = line.len() / 2;
    if last < i || last - i < k {
        return 0;
    }
    let high = digit_at(line, 2 * (i + k));
    let low = digit_at(line, 2 * (i + k) + 1);
    high * 16 + low
}

// The byte at place i of a line.
pub fn byte_at(line: &[u8], i: usize) -> u8
    ensures { result ≡ byte_at line.now i }
{
    byte_after(line, i, 0)
}

// The number of eight bytes from place i on.
pub fn number_at(line: &[u8], i: usize) -> u64
    ensures { result ≡ number_at line.now i 8 }
{
    let mut n: u64 = 0;
    for k in 0..8 {
        n = n * 256 + u64::from(byte_after(line, i, k));
    }
    n
}
