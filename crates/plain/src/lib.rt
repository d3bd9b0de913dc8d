// A master's claims once more, read bit by bit: every slot in turn, and nothing passed over. `ownership` has the reading that it is held
// against; of that it has the type of a fate, and no code.
#![tactic(auto)]

ghost use Rattle.std.specs.Prelude.{◌≡◌, cond, ◌*◌, ◌/◌, leb};
ghost use Rattle.ownership.specs.Claim.{claimant, fate, claim};

use answers::Tally;
use ownership::Fate;
use std::cmp::Ordering;

// The fate of a claimed slot by its entry, written once more: of the reading that this is held against it may have no code.
#[tactic(auto, unfolding(ownership::specs::Claim::fate))]
fn fate_of(owner: u16, configs: &[u64], size: u16, sender: u16, config: u64) -> Fate
    ensures { result ≡ fate (claimant configs.now size sender config) owner }
{
    if owner >= size {
        return Fate::Bound;
    }
    if owner == sender {
        return Fate::Stays;
    }
    match records::known_at(configs, owner as usize).cmp(&config) {
        Ordering::Less => Fate::Rebound,
        Ordering::Greater => Fate::Stale,
        Ordering::Equal => Fate::Stays,
    }
}

// How many slots of the table the bitmap's bytes speak of.
fn reach(slots: usize, bytes: usize) -> usize
    ensures { result ≡ cond (leb bytes (slots / 8)) (bytes * 8) slots }
{
    if bytes <= slots / 8 { bytes * 8 } else { slots }
}

// A master's claims: each slot of the bitmap goes to the sender or stays, by its owner's known configEpoch and the frame's.
pub fn claim(
    slots: &mut [u16],
    bitmap: &[u8],
    configs: &[u64],
    size: u16,
    sender: u16,
    config: u64,
) -> Tally
    ensures { record { tally = result; slots = slots.new } ≡ claim (claimant configs.now size sender config) bitmap.now slots.old }
{
    let end = reach(slots.len(), bitmap.len());
    let mut bound: usize = 0;
    let mut rebound: usize = 0;
    let mut stale = None;
    for s in 0..end {
        if (bitmap[s / 8] >> (s % 8)) % 2 == 1 {
            match fate_of(slots[s], configs, size, sender, config) {
                Fate::Bound => {
                    slots[s] = sender;
                    bound += 1;
                }
                Fate::Rebound => {
                    slots[s] = sender;
                    rebound += 1;
                }
                // The first that is found stays.
                Fate::Stale => stale = stale.or(Some(s)),
                Fate::Stays => {}
            }
        }
    }
    Tally {
        bound,
        rebound,
        stale,
    }
}
