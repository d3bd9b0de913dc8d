// The words of a line of a run's file (docs/REPLAY.md): the line without its comment, words that are the same, and what a word
// says as a number or as a range of slots.
#![tactic(auto)]

ghost use Rattle.std.specs.Prelude.{◌≡◌, ◌≤◌, length};
ghost use Rattle.words.specs.Words.{up_to, said, same};
ghost use Rattle.words.specs.Numbers.{between, capped, longer, value, least_of, most_of, number_of, first_slot, last_slot, is_range, kept};

// Where a byte first stands, or the text's end.
fn up_to(text: &[u8], byte: u8) -> usize
    ensures { (result ≡ up_to byte text.now) × (result ≤ length text.now) }
{
    tables::first_byte(text, byte).unwrap_or(text.len())
}

// The line without its comment.
pub fn said(line: &[u8]) -> &[u8]
    ensures { result.now ≡ said line.now }
{
    let end = up_to(line, b'#');
    &line[..end]
}

#[tactic(auto, using(crate::proofs::Words::equal))]
pub fn same(a: &[u8], b: &[u8]) -> bool
    ensures { result ≡ same a.now b.now }
{
    a == b
}

// The greatest number that is read; one more stands for all that are greater, and for what is no number.
const MOST: u64 = 1000000000000000000;

pub fn between(v: u64, low: u64, high: u64) -> bool
    ensures { result ≡ between low high v }
{
    low <= v && v <= high
}

fn capped(v: u64) -> u64
    ensures { (result ≡ capped v) × (result ≤ 1000000000000000001) }
{
    v.min(MOST + 1)
}

// A number with a character behind it.
fn longer(v: u64, c: u8) -> u64
    requires { v ≤ 1000000000000000001 }
    ensures { (result ≡ longer v c) × (result ≤ 1000000000000000001) }
{
    if c < b'0' || c > b'9' {
        return MOST + 1;
    }
    capped(v * 10 + u64::from(c - b'0'))
}

// What a word says as a number.
fn value(word: &[u8]) -> u64
    ensures { (result ≡ value word.now) × (result ≤ 1000000000000000001) }
{
    if word.is_empty() {
        return MOST + 1;
    }
    let mut v: u64 = 0;
    for c in word {
        v = longer(v, *c);
    }
    v
}

// The least and the greatest number of a kind, which is a letter: `number` promises its answer for every one of them, so an enum
// would take less.
fn least(kind: u8) -> u64
    ensures { result ≡ least_of kind }
{
    match kind {
        b'z' => 1,
        b'T' => 100,
        _ => 0,
    }
}

fn most(kind: u8) -> u64
    ensures { result ≡ most_of kind }
{
    match kind {
        b'z' => 16,
        b'T' => 600000,
        b'o' => 65535,
        b't' => MOST,
        _ => 255,
    }
}

// The number that a word says, if it fits where it stands; else the same as an error, since `number_of` says it either way.
#[tactic(auto, unfolding(crate::specs::Numbers::number_of))]
pub fn number(word: &[u8], kind: u8) -> Result<u64, u64>
    ensures { result ≡ number_of word.now kind }
{
    let value = value(word);
    if !between(value, least(kind), most(kind)) {
        return Err(value);
    }
    Ok(value)
}

// Where a range begins and ends.
#[tactic(auto, unfolding(crate::specs::Numbers::first_slot))]
pub fn first_slot(range: &[u8]) -> u64
    ensures { result ≡ first_slot range.now }
{
    let end = up_to(range, b'-');
    value(&range[..end])
}

#[tactic(auto, unfolding(crate::specs::Numbers::last_slot))]
pub fn last_slot(range: &[u8]) -> u64
    ensures { result ≡ last_slot range.now }
{
    let dash = up_to(range, b'-');
    if dash < range.len() {
        return value(&range[dash + 1..]);
    }
    value(range)
}

#[tactic(auto, unfolding(crate::specs::Numbers::is_range))]
pub fn is_range(word: &[u8]) -> bool
    ensures { result ≡ is_range word.now }
{
    between(last_slot(word), first_slot(word), 16383)
}

// A time as a report's entry keeps it: one more, so that 0 is none.
pub fn kept(time: u64) -> u64
    ensures { result ≡ kept time }
{
    capped(time.saturating_add(1))
}
