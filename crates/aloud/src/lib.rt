// A listing in words, as somebody reads it out on the phone.
#![tactic(auto)]

ghost use Rattle.std.specs.Prelude.{◌≡◌, ◌*◌, ◌<◌, take};
ghost use Rattle.lines.specs.Writers.{extended};
ghost use Rattle.listing.specs.Listing.{range};
ghost use Rattle.aloud.specs.Aloud.{span, owned_line, unowned_line, gap, spoken, ranges_of};

use lines::Writer;

// ---- a line

// How many slots there are from a first to a last one; none if the last comes before the first. What is asked of the last one
// here and below is no type: a first one may be 65,536, which u16 has not, and numbers of two types side by side are no plainer.
fn span(first: u64, last: u64) -> u64
    requires { last < 65536 }
    ensures { result ≡ span first last }
{
    (last + 1).saturating_sub(first)
}

// Adds the line of a range: whose its slots are.
#[tactic(auto, unfolding(crate::specs::Aloud::owned_line, lines::specs::Texts::ascii))]
fn put_owned(out: &mut Writer, first: u64, last: u64, owner: u64)
    requires { last < 65536 }
    ensures { out.new ≡ extended out.old (owned_line (range first last owner)) }
{
    if first == last {
        phrases::put_filled(
            out,
            b"slot %, that is 1 slot, belongs to node %\n",
            &[first, owner],
        );
        return;
    }
    phrases::put_filled(
        out,
        b"slots % to %, that is % slots, belong to node %\n",
        &[first, last, span(first, last), owner],
    );
}

// Adds the line of slots that nobody owns.
#[tactic(auto, unfolding(crate::specs::Aloud::unowned_line, lines::specs::Texts::ascii))]
fn put_unowned(out: &mut Writer, first: u64, last: u64)
    requires { last < 65536 }
    ensures { out.new ≡ extended out.old (unowned_line first last) }
{
    if first == last {
        phrases::put_filled(out, b"slot %, that is 1 slot, is unowned\n", &[first]);
        return;
    }
    phrases::put_filled(
        out,
        b"slots % to %, that is % slots, are unowned\n",
        &[first, last, span(first, last)],
    );
}

// ---- a listing

// The front of a list, with so many ranges in it; all of a list that has fewer.
pub fn front(list: &[u16], count: usize) -> &[u16]
    ensures { result.now ≡ take (3 * count) list.now }
{
    if count <= list.len() / 3 {
        let end = 3 * count;
        return &list[..end];
    }
    list
}

// Adds the line of the unowned slots from one up to the next that is owned, if there are any.
#[tactic(auto, using(lines::proofs::Texts::puts_append), unfolding(crate::specs::Aloud::gap, lines::specs::Texts::puts))]
fn put_gap(out: &mut Writer, margin: &[u8], from: u64, next: u64)
    requires { next < 65536 }
    ensures { out.new ≡ extended out.old (gap margin.now from next) }
{
    if next <= from {
        return;
    }
    out.put_text(margin);
    put_unowned(out, from, next - 1);
}

// Adds the lines of a listing, read from the list that it was written to, each with a margin in front.
pub fn put_listing(out: &mut Writer, margin: &[u8], list: &[u16])
    ensures { out.new ≡ extended out.old (spoken margin.now (ranges_of list.now)) }
{
    let mut next: u64 = 0;
    let mut left = list;
    while let [first, last, owner, rest @ ..] = left {
        put_gap(out, margin, next, u64::from(*first));
        out.put_text(margin);
        put_owned(out, u64::from(*first), u64::from(*last), u64::from(*owner));
        next = u64::from(*last) + 1;
        left = rest;
    }
    put_gap(out, margin, next, u64::from(tables::SLOTS));
}
