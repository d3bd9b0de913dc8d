// What a call is answered, one case for each number of documents 01 and 02.
#![tactic(auto)]

ghost use Rattle.std.specs.Prelude.{◌≡◌};
ghost use Rattle.answers.specs.Answers.{number};

// What a heartbeat's claims came to: how many slots were newly bound, how many were rebound, and the lowest slot at which
// the sender is stale.
#[derive(Clone, Copy)]
pub struct Tally {
    pub bound: usize,
    pub rebound: usize,
    pub stale: Option<usize>,
}

#[derive(Clone, Copy)]
pub enum Answer {
    Done,
    // A heartbeat, and what its claims came to.
    Heard(Tally),
    WrongLength,
    NotAFrame,
    UnknownNode,
    BeforeClock,
    OutOfBounds,
    OwnNumber,
    Unsound,
    FollowsItself,
    AtTheTop,
    Granted,
    NotVoting,
    StaleEpoch,
    AlreadyVoted,
    NoListedMaster,
    MasterNotFailed,
    VotedLately,
    // A vote refused for a slot whose owner is newer than the candidate, the lowest of them.
    Outdated(usize),
    // A vote refused for a bitmap with no bit set.
    ClaimsNothing,
    MarksFull,
    NoSuchSlot,
    NotMarked,
    WrongSide,
    NotReplica,
    OwnMasterNotFailed,
    OwnMasterEmpty,
    ElectionYoung,
    // An election won, and how many slots passed to this node.
    Won(usize),
    NoElection,
    OtherCandidate,
    OtherEpoch,
    NoVoter,
    AckLate,
    AckRepeated,
    // The ranges of a slot table were listed, so many.
    Listed(usize),
    // The list lent is too short for so many ranges.
    ListShort(usize),
}

// What checks in order come to: nothing that is refused, or the first answer that applies.
pub type Check = Result<(), Answer>;

// The number that documents 01 and 02 give the answer.
pub fn number(answer: Answer) -> u8
    ensures { result ≡ number answer }
{
    match answer {
        Answer::Done => 0,
        Answer::Heard(_) => 0,
        Answer::WrongLength => 1,
        Answer::NotAFrame => 2,
        Answer::UnknownNode => 3,
        Answer::BeforeClock => 4,
        Answer::OutOfBounds => 5,
        Answer::OwnNumber => 6,
        Answer::Unsound => 7,
        Answer::FollowsItself => 8,
        Answer::AtTheTop => 9,
        Answer::Granted => 10,
        Answer::NotVoting => 11,
        Answer::StaleEpoch => 12,
        Answer::AlreadyVoted => 13,
        Answer::NoListedMaster => 14,
        Answer::MasterNotFailed => 15,
        Answer::VotedLately => 16,
        Answer::Outdated(_) => 17,
        Answer::ClaimsNothing => 18,
        Answer::MarksFull => 20,
        Answer::NoSuchSlot => 21,
        Answer::NotMarked => 22,
        Answer::WrongSide => 23,
        Answer::NotReplica => 24,
        Answer::OwnMasterNotFailed => 25,
        Answer::OwnMasterEmpty => 26,
        Answer::ElectionYoung => 28,
        Answer::Won(_) => 30,
        Answer::NoElection => 31,
        Answer::OtherCandidate => 32,
        Answer::OtherEpoch => 33,
        Answer::NoVoter => 34,
        Answer::AckLate => 35,
        Answer::AckRepeated => 36,
        Answer::Listed(_) => 0,
        Answer::ListShort(_) => 40,
    }
}
