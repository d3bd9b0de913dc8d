// Who owns a slot: what a master's bitmap makes of the slot table. Document 01, "Heartbeat", the claims. They are read 64 at a time:
// zero bytes are passed over together, and so are slots that are the sender's own already (document 02, [2]).
#![tactic(auto)]

ghost use Rattle.std.specs.Prelude.{◌≡◌, cond, ◌+◌, ◌-◌, ◌*◌, ◌/◌, ◌≤◌, ◌<◌, min, length};
ghost use Rattle.tables.specs.Sets.{claimed, word_of};
ghost use Rattle.ownership.specs.Claim.{claimant, fate, claim};
ghost use Rattle.ownership.specs.Own.{owned_by, all_own};

use answers::Tally;

// What a claim of a slot comes to.
#[derive(Clone, Copy)]
pub enum Fate {
    // Unowned: it goes to the sender.
    Bound,
    // Another's with a lesser configEpoch: it goes to the sender.
    Rebound,
    // Another's with a greater configEpoch: it stays, and the sender is stale.
    Stale,
    // It stays.
    Stays,
}

// The fate of a claimed slot by its entry.
#[tactic(auto, unfolding(crate::specs::Claim::fate))]
fn fate_of(owner: u16, configs: &[u64], size: u16, sender: u16, config: u64) -> Fate
    ensures { result ≡ fate (claimant configs.now size sender config) owner }
{
    if owner >= size {
        return Fate::Bound;
    }
    if owner == sender {
        return Fate::Stays;
    }
    // By two tests, measured: with `cmp` and a match a claim of others' slots takes twice as long.
    let known = records::known_at(configs, owner as usize);
    if known < config {
        Fate::Rebound
    } else if known > config {
        Fate::Stale
    } else {
        Fate::Stays
    }
}

// Whether the 64 slots from a place on are all a node's own. After the first there is no early end, so that the processor compares
// several entries at once.
fn owned_by(slots: &[u16], from: usize, node: u16) -> bool
    requires { from + 64 ≤ length slots.now }
    ensures { result ≡ owned_by node slots.now from }
{
    if slots[from] != node {
        return false;
    }
    let mut all = true;
    for &owner in &slots[from..from + 64] {
        all &= owner == node;
    }
    all
}

// The claims on the 64 slots from a place on that have to be looked at, a bit each: none where all 64 are the sender's own.
fn pending(slots: &[u16], bitmap: &[u8], from: usize, size: u16, sender: u16) -> u64
    requires { (from < length slots.now) × (8 * (from / 8) ≡ from) }
    ensures { result ≡ cond (all_own size sender slots.now from) 0 (word_of (claimed bitmap.now) from (min (length slots.now - from) 64)) }
{
    let left = slots.len() - from;
    let word = bitmaps::word_at(bitmap, from / 8, left);
    if word == 0 {
        return 0;
    }
    if sender >= size {
        return word;
    }
    if left < 64 {
        return word;
    }
    if !owned_by(slots, from, sender) {
        return word;
    }
    0
}

// A master's claims: each slot of the bitmap goes to the sender or stays, by its owner's known configEpoch and the frame's. A word's
// bits are taken from the lowest on.
pub fn claim(
    slots: &mut [u16],
    bitmap: &[u8],
    configs: &[u64],
    size: u16,
    sender: u16,
    config: u64,
) -> Tally
    ensures { record { tally = result; slots = slots.new } ≡ claim (claimant configs.now size sender config) bitmap.now slots.old }
{
    let mut bound: usize = 0;
    let mut rebound: usize = 0;
    let mut stale = None;
    // No `step_by`, measured: with it a claim of others' slots takes twice as long.
    let mut from: usize = 0;
    while from < slots.len() {
        let mut word = pending(slots, bitmap, from, size, sender);
        // A word's bits, each turn without the lowest: no place is counted.
        while word != 0 {
            let s = from + u64::trailing_zeros(word) as usize;
            word = word & (word - 1);
            match fate_of(slots[s], configs, size, sender, config) {
                Fate::Bound => {
                    slots[s] = sender;
                    bound += 1;
                }
                Fate::Rebound => {
                    slots[s] = sender;
                    rebound += 1;
                }
                // The first that is found stays.
                Fate::Stale => stale = stale.or(Some(s)),
                Fate::Stays => {}
            }
        }
        from += 64;
    }
    Tally {
        bound,
        rebound,
        stale,
    }
}
