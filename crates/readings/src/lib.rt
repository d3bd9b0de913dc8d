// The readings of a bitmap against the slot table, for C and Rust programs: a claim read 64 slots at a time, the same read bit by bit,
// and 17 of a vote request. A library of their own: beside the step, a second caller of a reading costs the step a copy of the state.
#![tactic(auto)]

ghost use Rattle.std.specs.Prelude.{◌≡◌, get_or};
ghost use Rattle.tables.specs.Lists.{first_at};
ghost use Rattle.ownership.specs.Claim.{claimant, claim};
ghost use Rattle.claims.specs.Claims.{newer_owner};
ghost use Rattle.digests.specs.Digest.{place};
ghost use Rattle.readings.specs.Claims.{digested};

// A master's claims on the slot table: document 01, "Heartbeat".
#[unsafe(no_mangle)]
pub extern "C" fn ukweribaso_claim(
    slots: &mut [u16],
    bitmap: &[u8],
    configs: &[u64],
    size: u16,
    sender: u16,
    config: u64,
) -> u64
    ensures { record { digest = result; slots = slots.new } ≡ digested (claim (claimant configs.now size sender config) bitmap.now slots.old) }
{
    digests::of_tally(ownership::claim(slots, bitmap, configs, size, sender, config))
}

// The same with every bit read in turn, for callers that hold the two readings against each other: to C it is a name of its own.
#[unsafe(no_mangle)]
pub extern "C" fn ukweribaso_claim_plain(
    slots: &mut [u16],
    bitmap: &[u8],
    configs: &[u64],
    size: u16,
    sender: u16,
    config: u64,
) -> u64
    ensures { record { digest = result; slots = slots.new } ≡ digested (claim (claimant configs.now size sender config) bitmap.now slots.old) }
{
    digests::of_tally(plain::claim(slots, bitmap, configs, size, sender, config))
}

// The lowest claimed slot with a newer owner, counted from 1, or 0: document 01, "Vote request", 17.
#[unsafe(no_mangle)]
pub extern "C" fn ukweribaso_newer_owner(
    size: u16,
    configs: &[u64],
    slots: &[u16],
    bitmap: &[u8],
    config: u64,
) -> u64
    ensures { result ≡ place (first_at (newer_owner size (λ o. get_or configs.now o 0) bitmap.now config) slots.now) }
{
    digests::place(claims::first_newer(size, configs, slots, bitmap, config))
}
