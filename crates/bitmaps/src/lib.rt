// A claim's bitmap, up to 64 slots at once: the claims on them in one word, whose bits are then taken from the lowest on, so that
// zero bytes are passed over together.
#![tactic(auto)]

ghost use Rattle.std.specs.Prelude.{◌≡◌, ◌+◌, ◌*◌, ◌≤◌, ◌<◌, min, length};
ghost use Rattle.tables.specs.Sets.{claimed, word_of};

// Eight bytes that are there, least first.
fn eight(bitmap: &[u8], k: usize) -> u64
    requires { k + 8 ≤ length bitmap.now }
    ensures { result ≡ word_of (claimed bitmap.now) (8 * k) 64 }
{
    u64::from_le_bytes([
        bitmap[k],
        bitmap[k + 1],
        bitmap[k + 2],
        bitmap[k + 3],
        bitmap[k + 4],
        bitmap[k + 5],
        bitmap[k + 6],
        bitmap[k + 7],
    ])
}

// The bytes from place k on where fewer than eight are left.
fn few(bitmap: &[u8], k: usize) -> u64
    requires { (k < length bitmap.now) × (length bitmap.now < k + 8) }
    ensures { result ≡ word_of (claimed bitmap.now) (8 * k) 64 }
{
    let mut word: u64 = 0;
    for i in (k..bitmap.len()).rev() {
        word = word * 256 + u64::from(bitmap[i]);
    }
    word
}

// The claims on the 64 slots of the eight bytes from place k on; past the bitmap's end nothing is claimed.
#[tactic(auto, using(crate::proofs::Bytes::word_ended))]
fn word_from(bitmap: &[u8], k: usize) -> u64
    ensures { result ≡ word_of (claimed bitmap.now) (8 * k) 64 }
{
    if k >= bitmap.len() {
        return 0;
    }
    if bitmap.len() - k < 8 {
        return few(bitmap, k);
    }
    eight(bitmap, k)
}

// The claims on so many slots from byte k on, but at most 64, a bit each, least first.
pub fn word_at(bitmap: &[u8], k: usize, slots: usize) -> u64
    ensures { result ≡ word_of (claimed bitmap.now) (8 * k) (min slots 64) }
{
    let word = word_from(bitmap, k);
    if slots < 64 {
        return word % (1 << slots);
    }
    word
}
