// The gateway's cached map: who owns each slot, and how new that is (document 02, [4] and [5]). It is lent as two lists, of owners
// and of epochs, as C programs have them.
#![tactic(auto)]

ghost use Rattle.std.specs.Prelude.{◌≡◌, get_or, set};
ghost use Rattle.cache.specs.Cache.{map_of, wrong_length, entry_at, held_epoch, entered};

// A slot's owner, and how new that is: the configEpoch that it was named with.
#[derive(Clone, Copy)]
pub struct Entry {
    pub owner: u16,
    pub epoch: u64,
}

// One of the lists has another length than an entry for each slot.
#[tactic(auto, unfolding(crate::specs::Cache::wrong_length))]
pub fn wrong_length(map: &[u16], epochs: &[u64]) -> bool
    ensures { result ≡ wrong_length (map_of map.now epochs.now) }
{
    let slots = usize::from(tables::SLOTS);
    map.len() != slots || epochs.len() != slots
}

// The cached owner of a slot, whether it is a node of the roster or not.
pub fn owner_at(map: &[u16], slot: u16) -> u16
    ensures { result ≡ get_or map.now slot 0 }
{
    map.get(usize::from(slot)).copied().unwrap_or(0)
}

// The epoch that a MOVED is held against: the one of the slot's entry, and 0 where that is none.
pub fn held_epoch(map: &[u16], epochs: &[u64], size: u16, slot: u16) -> u64
    ensures { result ≡ held_epoch size (entry_at (map_of map.now epochs.now) slot) }
{
    if owner_at(map, slot) >= size {
        return 0;
    }
    epochs.get(usize::from(slot)).copied().unwrap_or(0)
}

// A list changes in one place; past its end there is none to change.
fn put<T: Copy>(list: &mut [T], slot: u16, x: T)
    ensures { list.new ≡ set list.old slot x }
{
    let place = usize::from(slot);
    if place < list.len() {
        list[place] = x;
    }
}

// An owner and its epoch stand in the entry of that one slot.
pub fn enter(map: &mut [u16], epochs: &mut [u64], slot: u16, entry: Entry)
    ensures { map_of map.new epochs.new ≡ entered (map_of map.old epochs.old) slot entry }
{
    put(map, slot, entry.owner);
    put(epochs, slot, entry.epoch);
}
