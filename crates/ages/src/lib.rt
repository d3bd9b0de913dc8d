// How old a time is, and ages held against T: no sum or product here can wrap.
#![tactic(auto)]

ghost use Rattle.std.specs.Prelude.{◌≡◌};
ghost use Rattle.ages.specs.Ages.{age, over_twice, under_twice, ack_too_late, opening_young};

// How long ago t was; 0 if it is to come.
pub fn age(now: u64, t: u64) -> u64
    ensures { result ≡ age now t }
{
    now.saturating_sub(t)
}

// More than 2T: half of the age, rounded up, is above T.
pub fn over_twice(timeout: u64, age: u64) -> bool
    ensures { result ≡ over_twice timeout age }
{
    timeout < age - age / 2
}

// Less than 2T: half of the age is below T.
pub fn under_twice(timeout: u64, age: u64) -> bool
    ensures { result ≡ under_twice timeout age }
{
    age / 2 < timeout
}

// Longer than the greater of 2T and 2,000 ms: longer than both.
pub fn ack_too_late(timeout: u64, age: u64) -> bool
    ensures { result ≡ ack_too_late timeout age }
{
    2000 < age && timeout <= (age - 1) / 2
}

// Younger than the greater of 4T and 4,000 ms: younger than one of them.
pub fn opening_young(timeout: u64, age: u64) -> bool
    ensures { result ≡ opening_young timeout age }
{
    age < 4000 || age / 4 < timeout
}
