// A line that arrives in pieces, and what is kept of it until its newline comes: document 02, [9].
#![tactic(auto)]

ghost use Rattle.std.specs.Prelude.{◌≡◌, []};
ghost use Rattle.scraps.specs.Scraps.{short, part_of, grown, takes, taken_as};

// The most characters of a line that is not too long.
pub const ROOM: usize = 4200;

// What is kept of a line; a length above ROOM says that it is too long already. An array and a length, since memory is fixed: a
// line is kept by value between two calls.
#[derive(Clone, Copy)]
pub struct Kept {
    pub bytes: [u8; ROOM],
    pub length: usize,
}

// What a piece made of it: the line with what was taken of the piece, how many bytes that was, and whether the line has ended.
// The line and the count are there either way, so the flag is no Option.
#[derive(Clone, Copy)]
pub struct Gathered {
    pub kept: Kept,
    pub used: usize,
    pub ended: bool,
}

// Nothing is kept where a line begins.
#[tactic(auto, unfolding(crate::specs::Scraps::part_of))]
pub fn none() -> Kept
    ensures { part_of result ≡ short [] }
{
    Kept {
        bytes: [0u8; ROOM],
        length: 0,
    }
}

// More characters of the line.
pub fn keep(kept: Kept, more: &[u8]) -> Kept
    ensures { part_of result ≡ grown (part_of kept) more.now }
{
    let start = kept.length;
    if start > ROOM {
        return kept;
    }
    let mut bytes = kept.bytes;
    if more.len() > ROOM - start {
        return Kept {
            bytes,
            length: ROOM + 1,
        };
    }
    let end = start + more.len();
    bytes[start..end].copy_from_slice(more);
    Kept { bytes, length: end }
}

// All bytes of the piece up to and including the first newline, or the whole piece if there is none.
pub fn gather(kept: Kept, piece: &[u8]) -> Gathered
    ensures { taken_as result ≡ takes (part_of kept) piece.now }
{
    match tables::first_byte(piece, b'\n') {
        None => Gathered {
            kept: keep(kept, piece),
            used: piece.len(),
            ended: false,
        },
        Some(k) => {
            let used = k + 1;
            Gathered {
                kept: keep(kept, &piece[..k]),
                used,
                ended: true,
            }
        }
    }
}
