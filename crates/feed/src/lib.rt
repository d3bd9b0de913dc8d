// A feed of lines that arrives in pieces: document 02, [9]. The line that has not ended yet is kept between the calls.
#![tactic(auto)]

ghost use Rattle.std.specs.Prelude.{◌≡◌, cond, ltb};
ghost use Rattle.scraps.specs.Scraps.{room, part_of, grown};
ghost use Rattle.feed.specs.Feed.{on_line, station, fed_as, feeds};

use answers::Answer;
use scraps::{Kept, ROOM};
use state::{Node, Outcome};

// What a call answers, the node and the kept part after it, and how many bytes of the piece were used.
#[derive(Clone, Copy)]
pub struct Fed {
    pub told: Option<Answer>,
    pub node: Node,
    pub kept: Kept,
    pub used: usize,
}

// How many characters of a line the node is shown: none of one that is too long, which so is no frame.
fn shown(length: usize) -> usize
    ensures { result ≡ cond (ltb room length) 0 length }
{
    if length > ROOM { 0 } else { length }
}

// A line of which the last characters are lent. Where nothing was kept before them they are the line, and need no copy.
fn answer(node: Node, slots: &mut [u16], reports: &mut [u64], kept: Kept, last: &[u8]) -> Outcome
    ensures { record { outcome = result; slots = slots.new; reports = reports.new } ≡ on_line node slots.old reports.old (grown (part_of kept) last.now) }
{
    if kept.length == 0 {
        let end = shown(last.len());
        return node::frame(node, slots, reports, &last[..end]);
    }
    let line = scraps::keep(kept, last);
    let end = shown(line.length);
    node::frame(node, slots, reports, &line.bytes[..end])
}

// Takes all bytes of the piece up to and including the first newline, or the whole piece if there is none, and answers the
// line at its newline. An answer uses the line up.
pub fn feed(node: Node, slots: &mut [u16], reports: &mut [u64], kept: Kept, piece: &[u8]) -> Fed
    ensures { fed_as result slots.new reports.new ≡ feeds (station node slots.old reports.old kept) piece.now }
{
    match tables::first_byte(piece, b'\n') {
        None => Fed {
            told: None,
            node,
            kept: scraps::keep(kept, piece),
            used: piece.len(),
        },
        Some(k) => {
            let used = k + 1;
            let outcome = answer(node, slots, reports, kept, &piece[..k]);
            Fed {
                told: Some(outcome.answer),
                node: outcome.node,
                kept: scraps::none(),
                used,
            }
        }
    }
}
