// The slot table as ranges, written to a lent list: document 02, [1], with no node.
#![tactic(auto)]

ghost use Rattle.std.specs.Prelude.{◌≡◌, ◌+◌, ◌*◌, ◌≤◌, ◌<◌, ◌∷◌, ◌++◌, length, take, drop, ltb};
ghost use Rattle.tables.specs.Sizes.{slot_count};
ghost use Rattle.listing.specs.Listing.{listing, laid, lists};
ghost use Rattle.listing.specs.Stretches.{alike, is_end, one};

use answers::Answer;

// 1 where a slot ends a range, by its entry and the next one; else 0. A number, so that several slots are looked at at once.
fn ending(owner: u16, next: u16, size: u16) -> u16
    ensures { (result ≡ one (is_end size owner next)) × (result ≤ 1) }
{
    if owner >= size {
        return 0;
    }
    if owner == next {
        return 0;
    }
    1
}

fn owned(owner: u16, size: u16) -> u16
    ensures { (result ≡ one (ltb owner size)) × (result ≤ 1) }
{
    if owner < size {
        return 1;
    }
    0
}

// How many ranges there are: as many as slots that end one. The last slot has no next one.
fn count(slots: &[u16], size: u16) -> usize
    requires { length slots.now ≡ slot_count }
    ensures { result ≡ length (listing size slots.now) }
{
    let last = slots.len() - 1;
    let mut n: u16 = 0;
    for s in 0..last {
        n += ending(slots[s], slots[s + 1], size);
    }
    (n + owned(slots[last], size)) as usize
}

// Where the entries that are this owner's end, from a slot on.
fn stretch_end(slots: &[u16], from: usize, owner: u16) -> usize
    requires { from ≤ length slots.now }
    ensures { result ≡ from + alike owner (drop from slots.now) }
{
    for i in from..slots.len() {
        if slots[i] != owner {
            return i;
        }
    }
    slots.len()
}

// Writes a range's three numbers.
fn put(list: &mut [u16], at: usize, first: usize, last: usize, owner: u16)
    requires { (at + 3 ≤ length list.old) × (first < slot_count) × (last < slot_count) }
    ensures { list.new ≡ take at list.old ++ first ∷ last ∷ owner ∷ drop (at + 3) list.old }
{
    list[at] = first as u16;
    list[at + 1] = last as u16;
    list[at + 2] = owner;
}

// Writes the ranges, stretch by stretch: a turn goes to where its stretch ends, and counts no places.
fn write(slots: &[u16], size: u16, list: &mut [u16])
    requires { (length slots.now ≡ slot_count) × (3 * length (listing size slots.now) ≤ length list.old) }
    ensures { list.new ≡ laid (listing size slots.now) list.old }
{
    let mut s: usize = 0;
    let mut at: usize = 0;
    while s < slots.len() {
        let owner = slots[s];
        let end = stretch_end(slots, s + 1, owner);
        if owner < size {
            put(list, at, s, end - 1, owner);
            at += 3;
        }
        s = end;
    }
}

// The ranges of a slot table, by the roster's size, written to the list, if it has room for them.
pub fn list(slots: &[u16], size: u16, list: &mut [u16]) -> Answer
    ensures { record { answer = result; list = list.new } ≡ lists size slots.now list.old }
{
    if slots.len() != tables::SLOTS as usize {
        return Answer::WrongLength;
    }
    let count = count(slots, size);
    let numbers = 3 * count;
    if list.len() < numbers {
        return Answer::ListShort(count);
    }
    write(slots, size, list);
    Answer::Listed(count)
}

// The same with a table and a list that have their lengths: nothing can be refused, and the number of ranges is the answer.
pub fn list_whole(
    slots: &[u16; tables::SLOTS as usize],
    size: u16,
    list: &mut [u16; 3 * tables::SLOTS as usize],
) -> usize
    ensures { (result ≡ length (listing size slots.now)) × (list.new ≡ laid (listing size slots.now) list.old) }
{
    write(slots, size, list);
    count(slots, size)
}
