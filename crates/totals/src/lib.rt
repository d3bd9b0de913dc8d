// The last line below a listing in words: how many slots each node owns, and how many nobody.
#![tactic(auto, using(lines::proofs::Texts::puts_append))]

ghost use Rattle.std.specs.Prelude.{◌≡◌};
ghost use Rattle.lines.specs.Writers.{extended};
ghost use Rattle.totals.specs.Totals.{owned, ownerless, share, shares, remainder, totals};

use lines::Writer;

// ---- the numbers

// How many entries of a table are a node's.
#[tactic(auto, using(crate::proofs::Counted::counted))]
pub fn owned(slots: &[u16], k: u16) -> u64
    ensures { result ≡ owned slots.now k }
{
    slots.iter().filter(|owner| **owner == k).count() as u64
}

// How many are no number of the roster, and so nobody's.
#[tactic(auto, using(crate::proofs::Counted::counted))]
fn ownerless(slots: &[u16], size: u16) -> u64
    ensures { result ≡ ownerless size slots.now }
{
    slots.iter().filter(|owner| **owner >= size).count() as u64
}

// ---- the words

// Adds how many slots a node owns, if it owns any.
fn put_share(out: &mut Writer, k: u64, count: u64)
    ensures { out.new ≡ extended out.old (share k count) }
{
    if count == 0 {
        return;
    }
    if count == 1 {
        phrases::put_filled(out, b"node % owns 1 slot; ", &[k]);
        return;
    }
    phrases::put_filled(out, b"node % owns % slots; ", &[k, count]);
}

// Adds how many slots each node of the roster owns.
fn put_shares(out: &mut Writer, slots: &[u16], size: u16)
    ensures { out.new ≡ extended out.old (shares slots.now size) }
{
    for k in 0..size {
        put_share(out, u64::from(k), owned(slots, k));
    }
}

// Adds how many slots nobody owns.
fn put_remainder(out: &mut Writer, left: u64)
    ensures { out.new ≡ extended out.old (remainder left) }
{
    if left == 0 {
        out.put_text(b"no slot is unowned\n");
        return;
    }
    if left == 1 {
        out.put_text(b"1 slot is unowned\n");
        return;
    }
    phrases::put_filled(out, b"% slots are unowned\n", &[left]);
}

// Adds the line of totals.
pub fn put_totals(out: &mut Writer, slots: &[u16], size: u16)
    ensures { out.new ≡ extended out.old (totals size slots.now) }
{
    out.put_text(b"in all: ");
    put_shares(out, slots, size);
    put_remainder(out, ownerless(slots, size));
}
