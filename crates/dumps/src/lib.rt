// A slot table as it is written out, read back: as it lies in memory, or as text.
#![tactic(auto)]

ghost use Rattle.std.specs.Prelude.{◌≡◌, ◌*◌, ◌<◌, length};
ghost use Rattle.dumps.specs.Dumps.{is_space, small, is_text, digits, fours, pairs, first_odd, read_into};

// Entries of a slot table; its bytes in memory, and its digits as text.
const SLOTS: usize = tables::SLOTS as usize;

const BYTES: usize = 2 * SLOTS;

const DIGITS: usize = 4 * SLOTS;

// Why an input is no table: it is text with an odd character at a place, counted from 0, or with so many digits, too few or too
// many.
#[derive(Clone, Copy)]
pub enum Fault {
    Odd(usize),
    Digits(usize),
}

// ---- characters

// A blank, a tab, a line end and their like.
#[tactic(auto, unfolding(crate::specs::Dumps::is_space))]
fn is_space(c: u8) -> bool
    ensures { result ≡ is_space c }
{
    matches!(c, b' ' | b'\t'..=b'\r')
}

// A letter from A to F as the small one.
#[tactic(auto, unfolding(crate::specs::Dumps::small))]
fn small(c: u8) -> u8
    ensures { result ≡ small c }
{
    if matches!(c, b'A'..=b'F') { c + 32 } else { c }
}

fn is_text(c: u8) -> bool
    ensures { result ≡ is_text c }
{
    is_space(c) || hexdigits::is_digit(small(c))
}

// ---- a look at the whole input

// Where the first byte stands that no text has.
fn first_odd(input: &[u8]) -> Option<usize>
    ensures { result ≡ first_odd input.now }
{
    input.iter().position(|&c| !is_text(c))
}

fn count_digits(input: &[u8]) -> usize
    ensures { result ≡ length (digits input.now) }
{
    input.iter().filter(|&&c| !is_space(c)).count()
}

// ---- the two forms

// Two bytes an entry, the low one first.
fn fill_from_memory(input: &[u8], slots: &mut [u16])
    requires { length input.now ≡ 2 * length slots.old }
    ensures { slots.new ≡ pairs input.now }
{
    for (s, slot) in slots.iter_mut().enumerate() {
        *slot = u16::from_le_bytes([input[2 * s], input[2 * s + 1]]);
    }
}

// Four digits an entry, the highest first. An entry takes its digits in from below, so that after four of them nothing of what
// it was is left.
fn fill_from_text(input: &[u8], slots: &mut [u16])
    requires { length (digits input.now) ≡ 4 * length slots.old }
    ensures { slots.new ≡ fours (digits input.now) }
{
    let mut n: usize = 0;
    for &c in input {
        if !is_space(c) {
            let slot = &mut slots[n / 4];
            *slot = *slot % 4096 * 16 + u16::from(hexdigits::value(small(c)));
            n += 1;
        }
    }
}

// The input read into a lent table. It is looked at first, so that a fault writes nothing.
#[tactic(auto, unfolding(crate::specs::Dumps::read_into))]
pub fn read(input: &[u8], slots: &mut [u16; SLOTS]) -> Result<(), Fault>
    ensures { record { reading = result; slots = slots.new } ≡ read_into input.now slots.old }
{
    match first_odd(input) {
        Some(place) => {
            if input.len() != BYTES {
                return Err(Fault::Odd(place));
            }
            fill_from_memory(input, slots);
        }
        None => {
            let count = count_digits(input);
            if count != DIGITS {
                return Err(Fault::Digits(count));
            }
            fill_from_text(input, slots);
        }
    }
    Ok(())
}
