// The marks of slots that move, read, set and cleared: document 01, "Redirections".
#![tactic(auto)]

ghost use Rattle.std.specs.Prelude.{◌≡◌, ◌≤◌, ◌<◌, length};
ghost use Rattle.tables.specs.Sizes.{slot_count, mark_room};
ghost use Rattle.tables.specs.Checks.{checked};
ghost use Rattle.answers.specs.declared.Answer.TheVariants.{Done};
ghost use Rattle.answers.specs.Refusing.{cleared};
ghost use Rattle.state.specs.Outcomes.{answered};
ghost use Rattle.marks.specs.Marks.{marks_of, marking_at, others, insert, place_of, remarked};
ghost use Rattle.marks.specs.MarkChanges.{wrong_side, mark_checks, marking, set_mark, clear_checks, clear_mark};

use answers::{Answer, Check};
use state::{Mark, Move, Node, Outcome};

// ---- the marks

// Those that are part of the state.
fn marks_of(node: &Node) -> &[Mark]
    ensures { (result.now ≡ marks_of node.now) × (length result.now ≤ length node.now.marks) }
{
    let marks = &node.marks[..];
    &marks[..usize::from(node.marked).min(marks.len())]
}

// The mark on a slot.
pub fn find(node: Node, slot: u16) -> Option<Move>
    ensures { result ≡ marking_at node slot }
{
    let marks = marks_of(&node);
    for mark in marks {
        if mark.slot == slot {
            return Some(mark.movement);
        }
    }
    None
}

// The marks of other slots alone.
fn without(node: Node, slot: u16) -> Node
    ensures { result ≡ remarked node (others slot (marks_of node)) }
{
    let marks = marks_of(&node);
    let mut kept = node.marks;
    let mut j: usize = 0;
    for mark in marks {
        if mark.slot != slot {
            kept[j] = *mark;
            j += 1;
        }
    }
    changes::with_marks(node, kept, j as u16)
}

// Before which mark a slot's mark stands.
fn place(marks: &[Mark], slot: u16) -> usize
    ensures { (result ≡ place_of slot marks.now) × (result ≤ length marks.now) }
{
    for (i, mark) in marks.iter().enumerate() {
        if slot < mark.slot {
            return i;
        }
    }
    marks.len()
}

// One mark more, in its place.
fn with_mark(node: Node, mark: Mark) -> Node
    requires { node.marked < mark_room }
    ensures { result ≡ remarked node (insert mark (marks_of node)) }
{
    let at = place(marks_of(&node), mark.slot);
    let mut marks = node.marks;
    marks.copy_within(at..usize::from(node.marked), at + 1);
    marks[at] = mark;
    changes::with_marks(node, marks, node.marked + 1)
}

// ---- setting

// Migrating without owning the slot, or importing while owning it.
fn wrong_side(owned: bool, movement: Move) -> bool
    ensures { result ≡ wrong_side owned movement }
{
    match movement {
        Move::Migrating(_) => !owned,
        Move::Importing(_) => owned,
    }
}

// The checks of a mark, beside so many marks of other slots.
fn mark_check(node: &Node, slots: &[u16], slot: u16, movement: Move, beside: u16) -> Check
    requires { (length slots.now ≡ slot_count) × (beside ≡ length (others slot (marks_of node.now))) }
    ensures { result ≡ checked Err (mark_checks node.now slots.now slot movement) cleared }
{
    if slot >= tables::SLOTS {
        return Err(Answer::NoSuchSlot);
    }
    let peer = u16::from(state::peer_of(movement));
    if peer >= node.size {
        return Err(Answer::UnknownNode);
    }
    if peer == node.me {
        return Err(Answer::OwnNumber);
    }
    if wrong_side(slots[usize::from(slot)] == node.me, movement) {
        return Err(Answer::WrongSide);
    }
    if beside >= tables::MOST_MARKS {
        return Err(Answer::MarksFull);
    }
    Ok(())
}

// The checks of a mark, and the mark.
fn mark_slot(node: Node, slots: &[u16], slot: u16, movement: Move) -> Outcome
    requires { length slots.now ≡ slot_count }
    ensures { result ≡ checked (answered node) (mark_checks node slots.now slot movement) (answered (marking slot movement node) Done) }
{
    let rest = without(node, slot);
    let check = mark_check(&node, slots, slot, movement, rest.marked);
    match check {
        Err(answer) => Outcome { answer, node },
        Ok(()) => {
            let next = with_mark(rest, Mark { slot, movement });
            Outcome {
                answer: Answer::Done,
                node: next,
            }
        }
    }
}

// Marks a slot as migrating or importing, in place of an older mark on it.
pub fn set_mark(node: Node, slots: &[u16], slot: u16, movement: Move) -> Outcome
    ensures { result ≡ set_mark node slots.now slot movement }
{
    let check = entry::checks(node, slots.len() == tables::SLOTS as usize);
    match check {
        Err(answer) => Outcome { answer, node },
        Ok(()) => mark_slot(node, slots, slot, movement),
    }
}

// ---- clearing

// The checks of a clearing.
fn clear_check(node: Node, slot: u16) -> Check
    ensures { result ≡ checked Err (clear_checks node slot) cleared }
{
    entry::checks(node, true)?;
    if slot >= tables::SLOTS {
        return Err(Answer::NoSuchSlot);
    }
    if find(node, slot).is_none() {
        return Err(Answer::NotMarked);
    }
    Ok(())
}

// Takes a slot's mark away.
pub fn clear_mark(node: Node, slot: u16) -> Outcome
    ensures { result ≡ clear_mark node slot }
{
    let check = clear_check(node, slot);
    match check {
        Err(answer) => Outcome { answer, node },
        Ok(()) => {
            let rest = without(node, slot);
            Outcome {
                answer: Answer::Done,
                node: rest,
            }
        }
    }
}
