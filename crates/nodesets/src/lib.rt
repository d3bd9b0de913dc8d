// Sets of node numbers: who may vote, whose acks were heard, who signals a failure. A set is one word, a bit for each number.
#![tactic(auto)]

ghost use Rattle.std.specs.Prelude.{◌≡◌};
ghost use Rattle.nodesets.specs.NodeSets.{none, has, added, count, majority, within, both, among, below};

use tables::MOST_NODES;

// Number v is bit v, least first.
#[derive(Clone, Copy)]
pub struct NodeSet {
    pub word: u64,
}

pub fn none() -> NodeSet
    ensures { result ≡ none }
{
    NodeSet { word: 0 }
}

#[tactic(auto, using(tables::proofs::Words::has_in, tables::proofs::Words::has_out))]
pub fn has(set: NodeSet, v: u16) -> bool
    ensures { result ≡ has set v }
{
    v < MOST_NODES && (set.word >> v) % 2 == 1
}

// With one number more; a number that no roster has changes nothing.
pub fn add(set: NodeSet, v: u16) -> NodeSet
    ensures { result ≡ added set v }
{
    if v >= MOST_NODES {
        return set;
    }
    NodeSet {
        word: set.word | (1 << v),
    }
}

pub fn count(set: NodeSet) -> u32
    ensures { result ≡ count set }
{
    u64::count_ones(set.word)
}

// More than half of the whole are in the part, by counts of ones.
#[tactic(auto, using(tables::proofs::Words::majority_one))]
pub fn majority(whole: NodeSet, part: NodeSet) -> bool
    ensures { result ≡ majority whole part }
{
    u64::count_ones(whole.word) < 2 * u64::count_ones(part.word)
}

// Every member of the part is one of the whole.
#[tactic(auto, using(tables::proofs::Words::alone))]
pub fn within(part: NodeSet, whole: NodeSet) -> bool
    ensures { result ≡ within part whole }
{
    part.word & whole.word == part.word
}

// The members of both.
pub fn both(one: NodeSet, other: NodeSet) -> NodeSet
    ensures { result ≡ both one other }
{
    NodeSet {
        word: one.word & other.word,
    }
}

// The numbers that stand in a table, found in one pass; what no roster has is passed over.
pub fn among(entries: &[u16]) -> NodeSet
    ensures { result ≡ among entries.now }
{
    let mut set = none();
    for &entry in entries {
        set = add(set, entry);
    }
    set
}

// No number from n on is in the set.
pub fn below(set: NodeSet, n: u16) -> bool
    ensures { result ≡ below set n }
{
    n >= MOST_NODES || set.word >> n == 0
}
