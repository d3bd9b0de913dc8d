// The node numbers that a frame names, by its kind, and the questions that the refusals ask of them.
#![tactic(auto)]

ghost use Rattle.std.specs.Prelude.{◌≡◌, eqb, leb};
ghost use Rattle.state.specs.declared.Role.TheVariants.{Master};
ghost use Rattle.frames.specs.declared.Kind.TheVariants.{Heartbeat, Fail};
ghost use Rattle.naming.specs.Naming.{named, some, same};

use frames::Kind;
use state::Role;

// Up to two node numbers.
#[derive(Clone, Copy)]
pub enum Numbers {
    Nobody,
    One(u8),
    Two(u8, u8),
}

// What a kind names: who must be in the roster, a replica and whom it follows, who may not be this node, and a reporter with
// its subject.
#[derive(Clone, Copy)]
pub struct Naming {
    pub listed: Numbers,
    pub follower: Numbers,
    pub others: Numbers,
    pub reporter: Numbers,
}

const NOBODY: Naming = Naming {
    listed: Numbers::Nobody,
    follower: Numbers::Nobody,
    others: Numbers::Nobody,
    reporter: Numbers::Nobody,
};

// A kind that names one node, which may not be this one; a master's heartbeat is such.
fn one(number: u8) -> Naming
    ensures { result ≡ named (Heartbeat number Master) }
{
    Naming {
        listed: Numbers::One(number),
        others: Numbers::One(number),
        ..NOBODY
    }
}

// A kind that names two nodes, of which neither may be this one; a fail frame is such.
fn two(first: u8, second: u8) -> Naming
    ensures { result ≡ named (Fail first second) }
{
    Naming {
        listed: Numbers::Two(first, second),
        others: Numbers::Two(first, second),
        ..NOBODY
    }
}

// What a kind names.
pub fn named(kind: Kind) -> Naming
    ensures { result ≡ named kind }
{
    match kind {
        Kind::Heartbeat {
            sender,
            role: Role::Master,
        } => one(sender),
        Kind::Heartbeat {
            sender,
            role: Role::Replica(master),
        } => Naming {
            follower: Numbers::Two(sender, master),
            others: Numbers::One(sender),
            ..two(sender, master)
        },
        Kind::Report {
            reporter,
            subject,
            ..
        } => Naming {
            reporter: Numbers::Two(reporter, subject),
            ..two(reporter, subject)
        },
        Kind::Fail { sender, subject } => two(sender, subject),
        Kind::Request { candidate } => one(candidate),
        Kind::Ack { voter, candidate } => Naming {
            others: Numbers::One(voter),
            ..two(voter, candidate)
        },
        Kind::Probe { subject, .. } => one(subject),
        Kind::Tick => NOBODY,
    }
}

// One of the numbers is past a roster of that size. (This and some_own differ in their test: a function lent the test would
// be longer than both, with what it asks of the test and promises.)
pub fn some_past(size: u16, numbers: Numbers) -> bool
    ensures { result ≡ some (leb size) numbers }
{
    match numbers {
        Numbers::Nobody => false,
        Numbers::One(number) => size <= u16::from(number),
        Numbers::Two(first, second) => size <= u16::from(first) || size <= u16::from(second),
    }
}

// One of the numbers is this node's.
pub fn some_own(me: u16, numbers: Numbers) -> bool
    ensures { result ≡ some (eqb me) numbers }
{
    match numbers {
        Numbers::Nobody => false,
        Numbers::One(number) => me == u16::from(number),
        Numbers::Two(first, second) => me == u16::from(first) || me == u16::from(second),
    }
}

pub fn same(numbers: Numbers) -> bool
    ensures { result ≡ same numbers }
{
    match numbers {
        Numbers::Nobody | Numbers::One(_) => false,
        Numbers::Two(first, second) => first == second,
    }
}
