// From a key to its slot: document 01, "Keys to slots".
#![tactic(auto)]

ghost use Rattle.std.specs.Prelude.{◌≡◌, get_or};
ghost use Rattle.slots.specs.Key.{hashed_part, with_bits, with_byte, crc16, key_slot};
ghost use Rattle.slots.specs.Table.{ByHalfByte};

use table::TABLE;

mod table;

// The part of the key that decides its slot: what stands between the first `{` and the first `}` after it, so that keys
// with the same tag share a slot. It is the whole key if there is no such tag or nothing in it.
pub fn hashed_part(key: &[u8]) -> &[u8]
    ensures { result.now ≡ hashed_part key.now }
{
    let Some(open) = tables::first_byte(key, b'{') else {
        return key;
    };
    let rest = &key[open + 1..];
    let Some(close) = tables::first_byte(rest, b'}') else {
        return key;
    };
    if close == 0 {
        return key;
    }
    &rest[..close]
}

// The table, which has its rule.
fn half_bytes() -> &'static [u16; 64]
    ensures { ByHalfByte result.now }
{
    &TABLE
}

// What sixteen bits make of a remainder: the sum, bit by bit, of what they make of its half bytes.
fn with_sixteen(crc: u16) -> u16
    ensures { result ≡ with_bits 16 crc }
{
    let table = half_bytes();
    let high = table[(48 + crc / 4096) as usize] ^ table[(32 + crc / 256 % 16) as usize];
    let low = table[(16 + crc / 16 % 16) as usize] ^ table[(crc % 16) as usize];
    high ^ low
}

// The remainder after two bytes more.
fn with_pair(crc: u16, pair: [u8; 2]) -> u16
    ensures { result ≡ with_byte (with_byte crc (get_or pair 0 0)) (get_or pair 1 0) }
{
    with_sixteen(crc ^ u16::from_be_bytes(pair))
}

// The remainder after one byte more.
fn with_byte(crc: u16, byte: u8) -> u16
    ensures { result ≡ with_byte crc byte }
{
    with_sixteen((crc / 256) ^ u16::from(byte)) ^ ((crc % 256) * 256)
}

// CRC16, XMODEM form, two bytes at a time.
pub fn crc16(bytes: &[u8]) -> u16
    ensures { result ≡ crc16 bytes.now }
{
    let (pairs, last) = bytes.as_chunks::<2>();
    let mut crc: u16 = 0;
    for pair in pairs {
        crc = with_pair(crc, *pair);
    }
    for byte in last {
        crc = with_byte(crc, *byte);
    }
    crc
}

// The key's slot.
pub fn key_slot(key: &[u8]) -> u16
    ensures { result ≡ key_slot key.now }
{
    crc16(hashed_part(key)) % tables::SLOTS
}
