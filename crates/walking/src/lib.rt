// One lookup from its start through a list of replies, for callers that time it. It is a static library of its own
// (`rt staticlib walking`): what the compiler makes of a function goes by what stands beside it.
#![tactic(auto)]

ghost use Rattle.std.specs.Prelude.{◌≡◌};
ghost use Rattle.routing.specs.Replies.{reply};
ghost use Rattle.cache.specs.Cache.{map_of};
ghost use Rattle.walking.specs.Walking.{reply_of, key_of, begun, walked, word, end_digest, stage_digest, first_of, last_of, key_digest, lookup_digest, digested};

use lookups::{End, Key, Lookup, Stage};
use routing::Redirect;

// ---- a reply as one number: its kind, slot, node and a MOVED's epoch

fn redirect_of(code: u64) -> Redirect
    ensures { reply result ≡ reply_of code }
{
    let slot = (code / 65536 % 65536) as u16;
    let node = (code / 4294967296 % 65536) as u16;
    match code % 65536 {
        0 => Redirect::Serve,
        1 => Redirect::WrongLength,
        7 => Redirect::Unsound,
        2 => Redirect::Down,
        3 => Redirect::Ask { slot, peer: node },
        _ => Redirect::Moved {
            slot,
            owner: node,
            epoch: code / 281474976710656 % 65536,
        },
    }
}

// ---- a lookup in one number

// Three numbers in 32 bits.
fn word(high: u8, middle: u8, low: u16) -> u32
    ensures { result ≡ word high middle low }
{
    u32::from(low) + u32::from(middle) * 65536 + u32::from(high) * 16777216
}

fn of_end(end: End) -> u32
    ensures { result ≡ end_digest end }
{
    match end {
        End::Served(node) => word(2, 0, node),
        End::Bad => word(3, 0, 0),
        End::Down => word(4, 0, 0),
        End::Declined(number) => word(5, 0, u16::from(number)),
        End::TooMany => word(6, 0, 0),
        End::Refused(number) => word(7, 0, u16::from(number)),
        End::Stale => word(8, 0, 0),
    }
}

fn of_stage(stage: Stage) -> u32
    ensures { result ≡ stage_digest stage }
{
    match stage {
        Stage::Asking(question) => word(u8::from(question.asking), question.hops, question.node),
        Stage::Ended(end) => of_end(end),
    }
}

fn first_of(text: &[u8]) -> u8
    ensures { result ≡ first_of text.now }
{
    text.first().copied().unwrap_or(0)
}

fn last_of(text: &[u8]) -> u8
    ensures { result ≡ last_of text.now }
{
    text.last().copied().unwrap_or(0)
}

fn of_key(key: Key) -> u32
    ensures { result ≡ key_digest key }
{
    let text = lookups::part(&key.bytes, key.length);
    word(last_of(text), first_of(text), (key.length % 65536) as u16)
}

fn of_lookup(lookup: Lookup) -> u64
    ensures { result ≡ lookup_digest lookup }
{
    lookup.household
        ^ (u64::from(of_stage(lookup.stage)) + u64::from(of_key(lookup.key)) * 4294967296)
}

// A household's lookup of a key, which takes the replies one after the other. What they teach goes into the map and the epochs
// beside its entries.
#[unsafe(no_mangle)]
pub extern "C" fn ukweribaso_lookup(
    map: &mut [u16],
    epochs: &mut [u64],
    size: u16,
    household: u64,
    key: &[u8],
    replies: &[u64],
) -> u64
    ensures { record { digest = result; map = map_of map.new epochs.new } ≡ digested (walked size (begun (map_of map.old epochs.old) size household (key_of key.now)) replies.now) }
{
    let mut lookup = gateway::start(map, epochs, size, household, lookups::key_of(key));
    for code in replies {
        lookup = gateway::take(lookup, map, epochs, size, redirect_of(*code));
    }
    of_lookup(lookup)
}
