// Bytes and numbers written in lowercase hexadecimal.
#![tactic(auto)]

ghost use Rattle.std.specs.Prelude.{◌≡◌, [], ◌∷◌, ◌+◌, ◌<◌};
ghost use Rattle.hexdigits.specs.Hex.{character, hex, bytes_of, over};

// The digit of a value.
#[tactic(auto, unfolding(hexdigits::specs::Hex::character))]
fn digit_of(value: u8) -> u8
    requires { value < 16 }
    ensures { result ≡ character value }
{
    if value < 10 {
        b'0' + value
    } else {
        b'a' - 10 + value
    }
}

// One character k places after place i, if there is room.
#[tactic(auto, using(hexdigits::proofs::Over::over_past, hexdigits::proofs::Over::over_one))]
fn put(out: &mut [u8], i: usize, k: usize, c: u8)
    ensures { out.new ≡ over out.old (i + k) (c ∷ []) }
{
    if i < out.len() && k < out.len() - i {
        out[i + k] = c;
    }
}

// A byte as two digits k places after place i.
fn write_after(out: &mut [u8], i: usize, k: usize, byte: u8)
    requires { k < 16 }
    ensures { out.new ≡ over out.old (i + k) (hex (byte ∷ [])) }
{
    put(out, i, k + 1, digit_of(byte % 16));
    put(out, i, k, digit_of(byte / 16));
}

// A byte written as two digits from place i on.
pub fn write_byte(out: &mut [u8], i: usize, byte: u8)
    ensures { out.new ≡ over out.old i (hex (byte ∷ [])) }
{
    write_after(out, i, 0, byte);
}

// A number written as sixteen digits from place i on, its last byte first.
pub fn write_number(out: &mut [u8], i: usize, number: u64)
    ensures { out.new ≡ over out.old i (hex (bytes_of 8 number)) }
{
    let mut rest = number;
    for k in (0..8).rev() {
        write_after(out, i, 2 * k, (rest % 256) as u8);
        rest /= 256;
    }
}
