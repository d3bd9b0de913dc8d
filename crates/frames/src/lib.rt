// A line of hexadecimal digits, read as a frame: document 01, "Frames (house)".
#![tactic(auto)]

ghost use Rattle.std.specs.Prelude.{◌≡◌};
ghost use Rattle.frames.specs.Frames.{kind_of, layout_of, digits_of, header_of, framed, frame_of, bitmap_of};

use state::{Echo, Role, Verdict};

// What every frame carries: the receiver's time, and the epochs, 0 where the kind has none. Of an ack, its epoch; else the
// sender's currentEpoch and configEpoch.
#[derive(Clone, Copy)]
pub struct Header {
    pub time: u64,
    pub epoch: u64,
    pub config: u64,
}

// A case for each kind, with what is the kind's own.
#[derive(Clone, Copy)]
pub enum Kind {
    Heartbeat {
        sender: u8,
        role: Role,
    },
    Report {
        reporter: u8,
        subject: u8,
        verdict: Verdict,
    },
    Fail {
        sender: u8,
        subject: u8,
    },
    Request {
        candidate: u8,
    },
    Ack {
        voter: u8,
        candidate: u8,
    },
    Probe {
        subject: u8,
        echo: Echo,
    },
    Tick,
}

#[derive(Clone, Copy)]
pub struct Frame {
    pub header: Header,
    pub kind: Kind,
}

// What follows a kind's first four bytes: the time; an epoch and the time; both epochs, the time and the bitmap.
#[derive(Clone, Copy)]
pub enum Layout {
    Short,
    Middle,
    Long,
}

// The row of the table that a line's first four bytes meet. A master's heartbeat has a followed byte of 0.
fn row(kind: u8, x: u8, y: u8, z: u8) -> Option<Kind>
    ensures { result ≡ kind_of kind x y z }
{
    let row = match (kind, x, y, z) {
        (1, sender, 0, 0) => Kind::Heartbeat {
            sender,
            role: Role::Master,
        },
        (1, sender, 1, master) => Kind::Heartbeat {
            sender,
            role: Role::Replica(master),
        },
        (2, reporter, subject, said) => Kind::Report {
            reporter,
            subject,
            verdict: match said {
                0 => Verdict::Fine,
                1 => Verdict::Pfail,
                2 => Verdict::Fail,
                _ => return None,
            },
        },
        (3, sender, subject, 0) => Kind::Fail { sender, subject },
        (4, candidate, 0, 0) => Kind::Request { candidate },
        (5, voter, candidate, 0) => Kind::Ack { voter, candidate },
        (6, subject, 0, 0) => Kind::Probe {
            subject,
            echo: Echo::Ping,
        },
        (6, subject, 1, 0) => Kind::Probe {
            subject,
            echo: Echo::Pong,
        },
        (7, 0, 0, 0) => Kind::Tick,
        _ => return None,
    };
    Some(row)
}

pub fn layout_of(kind: Kind) -> Layout
    ensures { result ≡ layout_of kind }
{
    match kind {
        Kind::Report { .. } | Kind::Fail { .. } | Kind::Probe { .. } | Kind::Tick => Layout::Short,
        Kind::Ack { .. } => Layout::Middle,
        Kind::Heartbeat { .. } | Kind::Request { .. } => Layout::Long,
    }
}

fn digits_of(layout: Layout) -> usize
    ensures { result ≡ digits_of layout }
{
    match layout {
        Layout::Short => 24,
        Layout::Middle => 40,
        Layout::Long => 4152,
    }
}

fn header_of(layout: Layout, line: &[u8]) -> Header
    ensures { result ≡ header_of layout line.now }
{
    match layout {
        Layout::Short => Header {
            time: hexdigits::number_at(line, 4),
            epoch: 0,
            config: 0,
        },
        Layout::Middle => Header {
            time: hexdigits::number_at(line, 12),
            epoch: hexdigits::number_at(line, 4),
            config: 0,
        },
        Layout::Long => Header {
            time: hexdigits::number_at(line, 20),
            epoch: hexdigits::number_at(line, 4),
            config: hexdigits::number_at(line, 12),
        },
    }
}

// The kind's length looked at, and its header read.
fn whole(line: &[u8], kind: Kind) -> Option<Frame>
    ensures { result ≡ framed line.now (Some kind) }
{
    let layout = layout_of(kind);
    if line.len() != digits_of(layout) {
        return None;
    }
    Some(Frame {
        header: header_of(layout, line),
        kind,
    })
}

// The frame that a line is, without its newline.
#[tactic(auto, unfolding(crate::specs::Frames::frame_of))]
pub fn decode(line: &[u8]) -> Option<Frame>
    ensures { result ≡ frame_of line.now }
{
    if !hexdigits::all_digits(line) {
        return None;
    }
    let kind = row(
        hexdigits::byte_at(line, 0),
        hexdigits::byte_at(line, 1),
        hexdigits::byte_at(line, 2),
        hexdigits::byte_at(line, 3),
    )?;
    whole(line, kind)
}

// The bitmap of a line of kind 1 or 4.
#[tactic(auto, unfolding(crate::specs::Frames::bitmap_of))]
pub fn bitmap(line: &[u8], out: &mut [u8; 2048])
    ensures { out.new ≡ bitmap_of line.now }
{
    hexbytes::bytes_at(line, 28, out);
}
