// The bytes of a long line of hexadecimal, many at once.
#![tactic(auto)]

ghost use Rattle.std.specs.Prelude.{◌≡◌, true, ◌+◌, ◌*◌, ◌/◌, ◌%◌, ◌≤◌, ◌<◌, length, get_or};
ghost use Rattle.hexdigits.specs.Hex.{is_digit, digit, all_digits, bytes_at};

// The two characters of the byte at place i in one number, the first lowest. A function of its own, so that both are read
// as one.
fn pair_at(line: &[u8], i: usize) -> u16
    requires { 2 * i + 1 < length line.now }
    ensures { result ≡ get_or line.now (2 * i) 0 + get_or line.now (2 * i + 1) 0 * 256 }
{
    u16::from_le_bytes([line[2 * i], line[2 * i + 1]])
}

// The byte of two digits. 0 to 9 are 48 to 57, a to f are 97 to 102; one sum gives both without a branch or a table, which
// is done for many pairs at once.
#[tactic(auto, using(hexdigits::proofs::Digits::two_by_sum, hexdigits::proofs::Digits::digit_lt))]
fn byte_of(pair: u16) -> u8
    requires { (is_digit (pair % 256) ≡ true) × (is_digit (pair / 256) ≡ true) }
    ensures { result ≡ digit (pair % 256) * 16 + digit (pair / 256) }
{
    ((pair % 16 + pair / 64 % 2 * 9) * 16 + pair / 256 % 16 + pair / 16384 * 9) as u8
}

// The bytes of a part that is digits only and has them all.
#[tactic(auto, unfolding(hexdigits::specs::Hex::bytes_at))]
fn fill(part: &[u8], out: &mut [u8])
    requires { (all_digits part.now ≡ true) × (2 * length out.old ≤ length part.now) }
    ensures { out.new ≡ bytes_at part.now 0 (length out.old) }
{
    for (i, byte) in out.iter_mut().enumerate() {
        *byte = byte_of(pair_at(part, i));
    }
}

// The bytes from place `from` on of a line that may end before them or have other characters.
#[tactic(auto, unfolding(hexdigits::specs::Hex::bytes_at))]
fn fill_short(line: &[u8], from: usize, out: &mut [u8])
    ensures { out.new ≡ bytes_at line.now from (length out.old) }
{
    for (k, byte) in out.iter_mut().enumerate() {
        *byte = hexdigits::byte_after(line, from, k);
    }
}

// The bytes from place `from` on, as many as there is room for. Arithmetic would make a byte of any two characters, so it
// gets digits only.
#[tactic(auto, using(hexdigits::proofs::Bytes::bytes_of_part))]
pub fn bytes_at(line: &[u8], from: usize, out: &mut [u8])
    ensures { out.new ≡ bytes_at line.now from (length out.old) }
{
    let whole = line.len() / 2;
    if from <= whole && out.len() <= whole - from {
        let part = &line[2 * from..];
        if hexdigits::all_digits(part) {
            fill(part, out);
            return;
        }
    }
    fill_short(line, from, out);
}
