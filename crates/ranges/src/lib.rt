// The ranges of its slot table, asked of a node: document 02, [1]. The call reads the node and changes nothing but the list.
#![tactic(auto)]

ghost use Rattle.std.specs.Prelude.{◌≡◌};
ghost use Rattle.ranges.specs.Ranges.{ranges};

use answers::Answer;
use state::Node;

// First slot, last slot and owner of each range, in ascending order, three numbers each from the list's front on.
#[tactic(auto, using(answers::proofs::Checks::by_check), unfolding(crate::specs::Ranges::ranges))]
pub fn ranges(node: Node, slots: &[u16], list: &mut [u16]) -> Answer
    ensures { record { answer = result; list = list.new } ≡ ranges node slots.now list.old }
{
    if let Err(refusal) = entry::checks(node, slots.len() == usize::from(tables::SLOTS)) {
        return refusal;
    }
    listing::list(slots, node.size, list)
}
