// Records by the numbers of their nodes: a step reads and changes them in place, in the node that it holds, so what it needs
// for that are places, and what to make of a number that has no record.
#![tactic(auto)]

ghost use Rattle.std.specs.Prelude.{◌≡◌, get_or};
ghost use Rattle.tables.specs.Sizes.{node_room};
ghost use Rattle.state.specs.Node.{blank};
ghost use Rattle.records.specs.Known.{known_configs, in_room, place_of};

use state::{Flag, Record, Role};
use tables::NODES;

// The known configEpoch of node k; of one that is not known, 0.
pub fn known_at(configs: &[u64], k: usize) -> u64
    ensures { result ≡ get_or configs.now k 0 }
{
    configs.get(k).copied().unwrap_or(0)
}

// How many of the listed nodes have a record.
pub fn listed(size: u16) -> usize
    ensures { result ≡ in_room size size node_room }
{
    usize::from(size).min(NODES)
}

// The known configEpochs of the listed nodes, by their numbers; past them, 0. The records are lent, for a copy of them is long.
#[tactic(auto, using(crate::proofs::Known::listed_inside))]
pub fn configs(records: &[Record; NODES], size: u16) -> [u64; NODES]
    ensures { result ≡ known_configs size records.now }
{
    let mut configs = [0; NODES];
    for k in 0..listed(size) {
        configs[k] = records[k].config;
    }
    configs
}

// Where the record of node k lies; a number past the records is sent to the first, and `known_of` and `kept_of` tell it apart.
pub fn place_of(k: usize) -> usize
    ensures { result ≡ place_of k }
{
    if k < NODES { k } else { 0 }
}

// What is known of node k by the record at its place; of a number past the records, nothing.
pub fn known_of(k: usize, there: Record) -> Record
    ensures { result ≡ in_room k there blank }
{
    if k < NODES {
        return there;
    }
    Record {
        role: Role::Master,
        config: 0,
        ping: None,
        flag: Flag::Clear,
        vote: None,
    }
}

// The record to store at the place of node k; for a number past the records the one that is there.
pub fn kept_of(k: usize, known: Record, there: Record) -> Record
    ensures { result ≡ in_room k known there }
{
    if k < NODES { known } else { there }
}
