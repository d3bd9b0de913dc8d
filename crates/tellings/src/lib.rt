// The lines that `replay` prints: docs/REPLAY.md, "What is printed".
#![tactic(auto)]

ghost use Rattle.lines.specs.Writers.{SameRoom};

use answers::{Answer, Tally};
use lines::Writer;
use nodesets::NodeSet;
use routing::Redirect;
use state::{Election, Role};

// A text, with the next number for each %.
#[tactic(auto, using(lines::proofs::Writers::same_room))]
pub fn put(out: &mut Writer, text: &str, numbers: &[u64])
    ensures { SameRoom out.old out.new }
{
    for (i, part) in text.split('%').enumerate() {
        out.put_text(part.as_bytes());
        if let Some(number) = numbers.get(i) {
            out.put_number(*number);
        }
    }
}

// ---- what is said of a line

// What is said of a line that was done to a node.
#[derive(Clone, Copy)]
pub enum Said {
    Nothing,
    // The answer,
    Answered(Answer),
    // where a key goes,
    Sent(Redirect),
    // how much is kept of a feed's line that has not ended yet,
    Unended(usize),
    // or, at the end, who the node is, and how many slots are its own by its own table.
    Last { role: Role, slots: u64 },
}

// What is told of a node after a line: the line's number and the node's, what is said, the node's epochs, the node that a frame
// names, the election if one was opened, and the flags' numbers before and after.
#[derive(Clone, Copy)]
pub struct Told {
    pub line: u64,
    pub node: u64,
    pub said: Said,
    pub current: u64,
    pub voted: u64,
    pub config: u64,
    pub named: u64,
    pub election: Option<Election>,
    pub before: [u8; tables::NODES],
    pub after: [u8; tables::NODES],
}

pub fn put_told(out: &mut Writer, told: Told)
    ensures { SameRoom out.old out.new }
{
    match told.said {
        Said::Nothing => {}
        Said::Answered(answer) => {
            put_head(out, told);
            put_answer(out, answer);
            put_below(out, told);
            put_news(out, answer, told);
            put_opened(out, told.election);
        }
        Said::Sent(redirect) => {
            put_head(out, told);
            put_redirect(out, redirect);
            put_below(out, told);
        }
        Said::Unended(length) => {
            put_head(out, told);
            put_unended(out, length);
            put_below(out, told);
        }
        Said::Last { role, slots } => put_last(out, told, role, slots),
    }
}

fn put_head(out: &mut Writer, told: Told)
    ensures { SameRoom out.old out.new }
{
    put(out, "% node %: ", &[told.line, told.node]);
}

// The rest of a call's line, and the flags below it.
fn put_below(out: &mut Writer, told: Told)
    ensures { SameRoom out.old out.new }
{
    put(
        out,
        "; currentEpoch %, lastVoteEpoch %\n",
        &[told.current, told.voted],
    );
    put_changes(out, told);
}

// ---- a call's line

// An answer begins with its number.
fn put_answer(out: &mut Writer, answer: Answer)
    ensures { SameRoom out.old out.new }
{
    put(out, "% ", &[u64::from(answers::number(answer))]);
    match answer {
        Answer::Heard(tally) => put_heard(out, tally),
        Answer::Outdated(slot) => {
            put(
                out,
                "refused, a slot's owner is newer, slot %",
                &[slot as u64],
            );
        }
        Answer::Won(passed) => put(out, "won, slots passed %", &[passed as u64]),
        Answer::Listed(ranges) => put(out, "listed, ranges %", &[ranges as u64]),
        Answer::ListShort(ranges) => {
            put(out, "the list is too short, ranges %", &[ranges as u64]);
        }
        _ => put(out, name(answer), &[]),
    }
}

fn put_heard(out: &mut Writer, tally: Tally)
    ensures { SameRoom out.old out.new }
{
    put(
        out,
        "heard, bound %, rebound %",
        &[tally.bound as u64, tally.rebound as u64],
    );
    if let Some(slot) = tally.stale {
        put(out, ", stale at slot %", &[slot as u64]);
    }
}

// The name of an answer that has no values.
fn name(answer: Answer) -> &'static str {
    match answer {
        Answer::Done => "done",
        Answer::WrongLength => "a table has the wrong length",
        Answer::NotAFrame => "not a frame",
        Answer::UnknownNode => "no such node",
        Answer::BeforeClock => "time before the clock",
        Answer::OutOfBounds => "out of bounds",
        Answer::OwnNumber => "own number",
        Answer::Unsound => "the state is not sound",
        Answer::FollowsItself => "follows itself",
        Answer::AtTheTop => "epoch at the top",
        Answer::Granted => "granted",
        Answer::NotVoting => "refused, not a voting master",
        Answer::StaleEpoch => "refused, epoch too low",
        Answer::AlreadyVoted => "refused, voted in that epoch already",
        Answer::NoListedMaster => "refused, no replica of a listed master",
        Answer::MasterNotFailed => "refused, its master is not FAIL",
        Answer::VotedLately => "refused, voted for such a replica lately",
        Answer::ClaimsNothing => "refused, claims no slot",
        Answer::MarksFull => "sixteen slots are marked",
        Answer::NoSuchSlot => "no such slot",
        Answer::NotMarked => "not marked",
        Answer::WrongSide => "wrong side",
        Answer::NotReplica => "not a replica",
        Answer::OwnMasterNotFailed => "its master is not FAIL",
        Answer::OwnMasterEmpty => "its master owns no slot",
        Answer::ElectionYoung => "an election is still young",
        Answer::NoElection => "no election is open",
        Answer::OtherCandidate => "for another candidate",
        Answer::OtherEpoch => "of another epoch",
        Answer::NoVoter => "voter not in the set",
        Answer::AckLate => "too late",
        Answer::AckRepeated => "heard already",
        Answer::Heard(_) | Answer::Outdated(_) | Answer::Won(_) => "",
        Answer::Listed(_) | Answer::ListShort(_) => "",
    }
}

// Where a key goes, or a refusal.
pub fn put_redirect(out: &mut Writer, redirect: Redirect)
    ensures { SameRoom out.old out.new }
{
    match redirect {
        Redirect::WrongLength => put_answer(out, Answer::WrongLength),
        Redirect::Unsound => put_answer(out, Answer::Unsound),
        Redirect::Down => put(out, "down", &[]),
        Redirect::Serve => put(out, "serve", &[]),
        Redirect::Ask { slot, peer } => {
            put(out, "ASK % %", &[u64::from(slot), u64::from(peer)]);
        }
        Redirect::Moved { slot, owner, epoch } => put(
            out,
            "MOVED % % at epoch %",
            &[u64::from(slot), u64::from(owner), epoch],
        ),
    }
}

// Why a lookup does not start, or what a node replied to it: `lookups` and `gateway` promise a refusal by its number.
pub fn put_refusal(out: &mut Writer, number: u8)
    ensures { SameRoom out.old out.new }
{
    match number {
        1 => put_answer(out, Answer::WrongLength),
        3 => put_answer(out, Answer::UnknownNode),
        7 => put_answer(out, Answer::Unsound),
        _ => put(out, "% the key is too long", &[u64::from(number)]),
    }
}

// What is kept of a feed's line that has not ended yet.
fn put_unended(out: &mut Writer, length: usize)
    ensures { SameRoom out.old out.new }
{
    if length > scraps::ROOM {
        put(out, "no line yet, it is too long already", &[]);
    } else {
        put(out, "no line yet, characters kept: %", &[length as u64]);
    }
}

// ---- below it

// The nodes whose flag is another one.
fn put_changes(out: &mut Writer, told: Told)
    ensures { SameRoom out.old out.new }
{
    for k in 0..tables::NODES {
        let flag = told.after[k];
        if flag != told.before[k] {
            put(out, flagged(flag), &[k as u64]);
        }
    }
}

fn flagged(flag: u8) -> &'static str {
    match flag {
        0 => "  node % is no longer flagged\n",
        1 => "  node % is now PFAIL\n",
        _ => "  node % is now FAIL\n",
    }
}

// What came with a frame's answer, said by the node that the frame names: claims, a vote of the epoch `voted`, or a win of
// the epoch `config`.
fn put_news(out: &mut Writer, answer: Answer, told: Told)
    ensures { SameRoom out.old out.new }
{
    match answer {
        Answer::Heard(tally) => put_tally(out, told.named, tally),
        Answer::Granted => put(
            out,
            "  vote of epoch % granted to node %\n",
            &[told.voted, told.named],
        ),
        Answer::Won(passed) => put(
            out,
            "  epoch % won, slots taken over: %\n",
            &[told.config, passed as u64],
        ),
        _ => {}
    }
}

fn put_tally(out: &mut Writer, node: u64, tally: Tally)
    ensures { SameRoom out.old out.new }
{
    if tally.bound > 0 {
        let count = tally.bound as u64;
        put(
            out,
            "  unowned slots that go to node %: %\n",
            &[node, count],
        );
    }
    if tally.rebound > 0 {
        let count = tally.rebound as u64;
        put(out, "  slots that pass to node %: %\n", &[node, count]);
    }
    if let Some(slot) = tally.stale {
        put(out, "  node % is stale at slot %\n", &[node, slot as u64]);
    }
}

// An election that was opened.
fn put_opened(out: &mut Writer, election: Option<Election>)
    ensures { SameRoom out.old out.new }
{
    if let Some(Election { epoch, voters, .. }) = election {
        put(out, "  election opened for epoch %, voters", &[epoch]);
        put_voters(out, voters);
        put(out, "\n", &[]);
    }
}

fn put_voters(out: &mut Writer, voters: NodeSet)
    ensures { SameRoom out.old out.new }
{
    let begin = out.end;
    for k in 0..tables::MOST_NODES {
        if nodesets::has(voters, k) {
            put(out, " %", &[u64::from(k)]);
        }
    }
    put_none(out, begin);
}

// An empty list.
fn put_none(out: &mut Writer, begin: usize)
    ensures { SameRoom out.old out.new }
{
    if out.end <= begin {
        put(out, " none", &[]);
    }
}

// ---- at the end

// A node: who it is, how many slots it owns and which nodes it has flagged.
fn put_last(out: &mut Writer, told: Told, role: Role, slots: u64)
    ensures { SameRoom out.old out.new }
{
    match role {
        Role::Master => put(out, "node %: master", &[told.node]),
        Role::Replica(master) => {
            put(out, "node %: replica of %", &[told.node, u64::from(master)]);
        }
    }
    put(
        out,
        ", configEpoch %, slots %, flags",
        &[told.config, slots],
    );
    put_flags(out, told.after);
    put(out, "\n", &[]);
}

fn put_flags(out: &mut Writer, flags: [u8; tables::NODES])
    ensures { SameRoom out.old out.new }
{
    let begin = out.end;
    for (k, flag) in flags.iter().enumerate() {
        match *flag {
            0 => {}
            1 => put(out, " % PFAIL", &[k as u64]),
            _ => put(out, " % FAIL", &[k as u64]),
        }
    }
    put_none(out, begin);
}

// The most wins that are kept.
pub const WINS: usize = 16;

// An epoch that was won, and the node that won it.
#[derive(Clone, Copy)]
pub struct Win {
    pub epoch: u64,
    pub node: u64,
}

// Each of the first wins, in the order won, and whether an earlier one was of the same epoch.
pub fn put_wins(out: &mut Writer, wins: &[Win; WINS], won: usize)
    ensures { SameRoom out.old out.new }
{
    if won == 0 {
        put(out, "no epoch was won\n", &[]);
    }
    for (i, win) in wins.iter().take(won).enumerate() {
        put(out, "epoch % won by node %", &[win.epoch, win.node]);
        if wins
            .iter()
            .take(i)
            .any(|earlier| earlier.epoch == win.epoch)
        {
            put(out, " AGAIN", &[]);
        }
        put(out, "\n", &[]);
    }
}
