// A line of a run's file, and the call that it says: docs/REPLAY.md. What a word says has its promise in `words` and
// `arguments`; that a line's words are looked at in their places is held to stored output.
#![tactic(auto)]

ghost use Rattle.std.specs.Prelude.{◌≡◌};
ghost use Rattle.lines.specs.Writers.{SameRoom};
ghost use Rattle.calls.specs.Forms.{numbered};

use lines::Writer;

// What a line says, by its first word; or what it is where no form says it.
#[derive(Clone, Copy, PartialEq, Eq)]
pub enum Form {
    Roster,
    Replica,
    Timeout,
    Slots,
    Report,
    Frame,
    Piece,
    Open,
    Migrate,
    Import,
    Unmark,
    Key,
    Hexkey,
    Ranges,
    Lookup,
    // The first word is no form's name.
    Unknown,
    // Nothing but blanks and a comment.
    Silent,
    // A line of which not all was kept.
    TooLong,
    // What the input's end is taken for: every node's line of the summary.
    Summary,
}

// The forms that have a name.
const FORMS: [Form; 15] = [
    Form::Roster,
    Form::Replica,
    Form::Timeout,
    Form::Slots,
    Form::Report,
    Form::Frame,
    Form::Piece,
    Form::Open,
    Form::Migrate,
    Form::Import,
    Form::Unmark,
    Form::Key,
    Form::Hexkey,
    Form::Ranges,
    Form::Lookup,
];

// The form that a number stands for, for callers that hold numbers: each has one.
pub fn numbered(number: u8) -> Form
    ensures { result ≡ numbered number }
{
    match number {
        253 => Form::Summary,
        254 => Form::Silent,
        255 => Form::TooLong,
        _ => FORMS
            .get(usize::from(number))
            .copied()
            .unwrap_or(Form::Unknown),
    }
}

// What stands at a place of a form.
#[derive(Clone, Copy)]
enum Place {
    // The form's name.
    Name,
    // That word; or that word or nothing more.
    The(&'static str),
    MayBe(&'static str),
    // SIZE, T, and TIME or HOUSEHOLD.
    Size,
    Timeout,
    Time,
    // A node of the roster; such a node, another than at place 1; such a node or `all`; such a node or nothing more.
    Node,
    Other,
    NodeOrAll,
    NodeOrEnd,
    // A node's number, and a slot or an owner.
    Peer,
    Slot,
    // ROOM, or nothing more.
    Room,
    // A range; a range or nothing more.
    Range,
    RangeOrEnd,
    // Any word; any word or nothing more; a key in hexadecimal.
    Word,
    WordOrEnd,
    Hex,
    // `present` or `absent`.
    Presence,
    // Nothing more.
    End,
}

// The value of `all`, which is no node's number.
pub const ALL: u64 = 256;

// The most words of a line.
pub const WORDS: usize = 64;

// What a line says. A range, a frame's digits and a key are words of the line: see `word`.
#[derive(Clone, Copy)]
pub struct Call {
    pub form: Form,
    // Which word does not fit or is missing, counted from 1.
    pub wrong: Option<usize>,
    // How many words it has, the form's name among them.
    pub words: usize,
    // The number that stands at each place, from 0; 1 for `present` and for a word of the form. By places and not by names, since
    // what `walks` promises reads them so.
    pub numbers: [u64; WORDS],
}

// ---- the forms

// A form as it is shown, from its name on; what stands at its places, from the name on, and at all places behind those.
#[derive(Clone, Copy)]
struct Shape {
    shown: &'static str,
    places: &'static [Place],
    rest: Place,
}

fn as_shown(shown: &'static str, places: &'static [Place], rest: Place) -> Shape {
    Shape {
        shown,
        places,
        rest,
    }
}

fn shape_of(form: Form) -> Shape {
    use Place::*;
    match form {
        Form::Roster => as_shown("roster SIZE", &[Name, Size], End),
        Form::Replica => as_shown(
            "replica NODE of MASTER",
            &[Name, Node, The("of"), Other],
            End,
        ),
        Form::Timeout => as_shown("timeout NODE T", &[Name, Node, Timeout], End),
        Form::Slots => as_shown(
            "slots RANGE of OWNER for NODE|all",
            &[Name, Range, The("of"), Slot, The("for"), NodeOrAll],
            End,
        ),
        Form::Report => as_shown(
            "report NODE SUBJECT REPORTER TIME",
            &[Name, Node, Node, Node, Time],
            End,
        ),
        Form::Frame => as_shown(
            "frame NODE DIGITS [claims RANGE..]",
            &[Name, Node, Word, MayBe("claims")],
            RangeOrEnd,
        ),
        Form::Piece => as_shown("piece NODE [CHARACTERS]", &[Name, Node, WordOrEnd], End),
        Form::Open => as_shown("open NODE TIME", &[Name, Node, Time], End),
        Form::Migrate => as_shown(
            "migrate NODE SLOT to PEER",
            &[Name, Node, Slot, The("to"), Peer],
            End,
        ),
        Form::Import => as_shown(
            "import NODE SLOT from PEER",
            &[Name, Node, Slot, The("from"), Peer],
            End,
        ),
        Form::Unmark => as_shown("unmark NODE SLOT", &[Name, Node, Slot], End),
        Form::Key => as_shown(
            "key NODE KEY present|absent [asking]",
            &[Name, Node, Word, Presence, MayBe("asking")],
            End,
        ),
        Form::Hexkey => as_shown(
            "hexkey NODE DIGITS present|absent [asking]",
            &[Name, Node, Hex, Presence, MayBe("asking")],
            End,
        ),
        Form::Ranges => as_shown("ranges NODE [ROOM]", &[Name, Node, Room], End),
        Form::Lookup => as_shown(
            "lookup HOUSEHOLD KEY held NODE..",
            &[Name, Time, Word, The("held")],
            NodeOrEnd,
        ),
        Form::Unknown | Form::Silent | Form::TooLong | Form::Summary => as_shown("", &[], End),
    }
}

fn place_of(form: Form, place: usize) -> Place {
    let shape = shape_of(form);
    shape.places.get(place).copied().unwrap_or(shape.rest)
}

// The form that has a word for its name.
fn form_of(word: &[u8]) -> Form {
    for form in FORMS {
        if words::same(word, word_of(shape_of(form).shown.as_bytes(), 0)) {
            return form;
        }
    }
    Form::Unknown
}

// The form as it is shown.
#[tactic(auto, using(lines::proofs::Writers::same_room))]
pub fn put_form(out: &mut Writer, form: Form)
    ensures { SameRoom out.old out.new }
{
    out.put_text(shape_of(form).shown.as_bytes());
}

// ---- words

// A text from its first character on that is no blank.
fn from_a_word(text: &[u8]) -> &[u8] {
    for first in 0..text.len() {
        if text[first] > b' ' {
            return &text[first..];
        }
    }
    &text[..0]
}

// A text without the blanks around it.
fn trimmed(text: &[u8]) -> &[u8] {
    for last in (0..text.len()).rev() {
        if text[last] > b' ' {
            return from_a_word(&text[..last + 1]);
        }
    }
    &text[..0]
}

// What a line says without its comment. Blanks are taken off first: a line may be all blanks, and is not searched for one then.
fn text_of(line: &[u8]) -> &[u8] {
    words::said(trimmed(line))
}

// The first word of a text, and what stands behind it; the empty word where there is none. Not by `split`, which makes an empty
// part of each blank: long stretches of blanks took twice as long, measured.
fn cut(text: &[u8]) -> (&[u8], &[u8]) {
    let rest = from_a_word(text);
    for end in 0..rest.len() {
        if rest[end] <= b' ' {
            return rest.split_at(end);
        }
    }
    rest.split_at(rest.len())
}

// Word i of a text that has no comment, counted from 0; the empty word where there are fewer.
fn word_of(text: &[u8], i: usize) -> &[u8] {
    let mut rest = text;
    for _ in 0..i {
        rest = cut(rest).1;
    }
    cut(rest).0
}

// Word i of a line.
pub fn word(line: &[u8], i: usize) -> &[u8] {
    word_of(text_of(line), i)
}

// ---- a word by what has to stand at its place: the number that it says, if it fits

// 1 for the word that is wanted.
fn literal(word: &[u8], wanted: &str) -> Option<u64> {
    words::same(word, wanted.as_bytes()).then_some(1)
}

// 0 for a word that says no number.
fn any(fits: bool) -> Option<u64> {
    fits.then_some(0)
}

// A number, by its kind: the letter that `words` promises a least and a greatest number for.
fn number(word: &[u8], kind: u8) -> Option<u64> {
    words::number(word, kind).ok()
}

fn node_or_all(word: &[u8]) -> Option<u64> {
    if words::same(word, b"all") {
        return Some(ALL);
    }
    number(word, b'n')
}

fn presence(word: &[u8]) -> Option<u64> {
    if words::same(word, b"present") {
        return Some(1);
    }
    words::same(word, b"absent").then_some(0)
}

fn is_hex(word: &[u8]) -> bool {
    hexdigits::all_digits(word) && word.len() % 2 == 0
}

// A word that is there, behind the number at place 1. Nobody follows itself.
fn fitting(word: &[u8], place: Place, first: u64) -> Option<u64> {
    match place {
        Place::The(wanted) | Place::MayBe(wanted) => literal(word, wanted),
        Place::Size => number(word, b'z'),
        Place::Timeout => number(word, b'T'),
        Place::Time => number(word, b't'),
        Place::Node | Place::NodeOrEnd | Place::Peer => number(word, b'n'),
        Place::Other => number(word, b'n').filter(|master| *master != first),
        Place::NodeOrAll => node_or_all(word),
        Place::Slot | Place::Room => number(word, b'o'),
        Place::Range | Place::RangeOrEnd => any(words::is_range(word)),
        Place::Presence => presence(word),
        Place::Hex => any(is_hex(word)),
        Place::Name | Place::Word | Place::WordOrEnd => Some(0),
        Place::End => None,
    }
}

// The line may end before such a place.
fn may_end(place: Place) -> bool {
    matches!(
        place,
        Place::MayBe(_)
            | Place::NodeOrEnd
            | Place::Room
            | Place::RangeOrEnd
            | Place::WordOrEnd
            | Place::End
    )
}

// ---- a line

fn blank(form: Form, wrong: Option<usize>) -> Call {
    Call {
        form,
        wrong,
        words: 0,
        numbers: [0; WORDS],
    }
}

// A line that says nothing, and one that was too long to be kept.
pub fn silent() -> Call {
    blank(Form::Silent, None)
}

pub fn too_long() -> Call {
    blank(Form::TooLong, None)
}

// The words of a form. The first that does not fit is named.
fn read_words(form: Form, text: &[u8]) -> Call {
    let mut numbers = [0; WORDS];
    let mut rest = text;
    for place in 0..WORDS {
        let (word, behind) = cut(rest);
        if word.is_empty() {
            return ended(form, place, numbers);
        }
        let Some(number) = fitting(word, place_of(form, place), numbers[1]) else {
            return blank(form, Some(place + 1));
        };
        numbers[place] = number;
        rest = behind;
    }
    if !cut(rest).0.is_empty() {
        return blank(form, Some(WORDS + 1));
    }
    ended(form, WORDS, numbers)
}

// A line that ends after so many words.
fn ended(form: Form, words: usize, numbers: [u64; WORDS]) -> Call {
    if !may_end(place_of(form, words)) {
        return blank(form, Some(words.saturating_add(1)));
    }
    Call {
        form,
        wrong: None,
        words,
        numbers,
    }
}

// What a line says.
pub fn read(line: &[u8]) -> Call {
    let text = text_of(line);
    let name = word_of(text, 0);
    if name.is_empty() {
        return silent();
    }
    match form_of(name) {
        Form::Unknown => blank(Form::Unknown, None),
        form => read_words(form, text),
    }
}

// The first number of a call that must name a node of the roster and does not.
pub fn stranger(call: Call, size: u64) -> Option<u64> {
    for (place, number) in call.numbers.iter().enumerate() {
        if is_strange(place_of(call.form, place), *number, size) {
            return Some(*number);
        }
    }
    None
}

fn is_strange(place: Place, number: u64, size: u64) -> bool {
    match place {
        Place::Node | Place::Other | Place::NodeOrEnd => number >= size,
        Place::NodeOrAll => number != ALL && number >= size,
        _ => false,
    }
}

// ---- a frame

// The slots that a line's ranges claim: words 4 and on.
fn claims(text: &[u8], table: &mut [u16]) {
    let mut rest = text;
    for place in 0..WORDS {
        let (range, behind) = cut(rest);
        if range.is_empty() {
            return;
        }
        if place >= 4 {
            arguments::give(table, words::first_slot(range), words::last_slot(range), 1);
        }
        rest = behind;
    }
}

// The bitmap of the claimed slots. It stands by itself, since its table would be cleared for a frame that claims nothing too.
#[tactic(auto, using(lines::proofs::Writers::same_room))]
fn put_bitmap(text: &[u8], out: &mut Writer)
    ensures { SameRoom out.old out.new }
{
    let mut table = [0u16; tables::SLOTS as usize];
    claims(text, &mut table);
    arguments::put_digits(&table, out);
}

// A frame's line: the digits, and behind them the bitmap where slots are claimed.
pub fn frame(line: &[u8], out: &mut Writer)
    ensures { SameRoom out.old out.new }
{
    let text = text_of(line);
    out.put_text(word_of(text, 2));
    if !word_of(text, 3).is_empty() {
        put_bitmap(text, out);
    }
}
