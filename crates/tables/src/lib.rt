// Sizes and bounds that every chapter shares, and the searches for a byte and for a number. The definitions and laws stand in
// specs/ and proofs/.
#![tactic(auto)]

ghost use Rattle.std.specs.Prelude.{◌≡◌};
ghost use Rattle.tables.specs.Lists.{first_byte, occurs};

// Slots, and so entries of a slot table.
pub const SLOTS: u16 = 16384;

// The most nodes that a roster has, and the report times of that many nodes about each other.
pub const NODES: usize = 64;

pub const REPORTS: usize = NODES * NODES;

// The same where a roster's size and a count of marks are held against them.
pub const MOST_NODES: u16 = NODES as u16;

pub const MOST_MARKS: u16 = MARKS as u16;

// The most move marks.
pub const MARKS: usize = 16;

// What an unowned slot's entry is written as.
pub const UNOWNED: u16 = 65535;

// The greatest epoch, 2^63 - 1.
pub const TOP: u64 = 9223372036854775807;

// Times are below 2^48.
pub const TIME_END: u64 = 281474976710656;

// T, in milliseconds.
pub const LEAST_TIMEOUT: u64 = 100;

pub const MOST_TIMEOUT: u64 = 600000;

// Where a byte first stands.
pub fn first_byte(bytes: &[u8], byte: u8) -> Option<usize>
    ensures { result ≡ first_byte byte bytes.now }
{
    bytes.iter().position(|&b| b == byte)
}

// How many entries of a table are searched before it is asked whether to go on: 64 bytes of it.
const STRETCH: usize = 32;

// Whether a number stands in a stretch of a table. There is no early end, so that the processor compares several entries at once.
fn stands_in(stretch: &[u16], number: u16) -> bool
    ensures { result ≡ occurs stretch.now number }
{
    let mut found = false;
    for &entry in stretch {
        found |= entry == number;
    }
    found
}

// Whether a number stands in a table. The search ends with the first stretch that has it.
pub fn occurs(entries: &[u16], number: u16) -> bool
    ensures { result ≡ occurs entries.now number }
{
    let (stretches, rest) = entries.as_chunks::<STRETCH>();
    stretches.iter().any(|stretch| stands_in(stretch, number)) || stands_in(rest, number)
}
