// A walk's head and a frame kept in words that a caller lends.
//
// The root settings stand first, kept as a record is; behind them stand the head's other numbers, and then the frame's. A number is that of the lowest
// octets of its word, so that any words at all hold some head and some frame.
// Promises, for any words: `head_at` and `waveform_at` answer what words hold, and `keep` stores it. Words too few for a head stay as they are.
// `word` answers a word and `four_at` the number of its four lowest octets, for others that keep numbers so.
// Read first: specs/Words.antt.
#![tactic(auto)]

ghost use Rattle.std.specs.Prelude.{◌≡◌, ◌+◌, ◌≤◌, length, get_or};
ghost use Rattle.octets.specs.Number.{low_of, twos};
ghost use Rattle.words.specs.Words.{words_at, Overlaid};
ghost use Rattle.kept.specs.Words.{head_place, flag_of, within_by, cursor_by, standing_by, times_by, head_by, root_of, told_by, head_in, waveform_in, Keeping};

use dated::{Dates, Times};
use items::{Cursor, Within};
use settings::Settings;
use standing::Standing;
use walk::{Head, Waveform};
use words::Records;

// The sizes of a head and a frame kept in words.
#[derive(Clone, Copy)]
pub struct Kept {}

impl Kept {
    // Words of the head and of a frame.
    pub const HEAD: usize = 64;

    // The numbers of the head stand behind its record, in words 16 to 35, and those of a frame behind them, in words 36 to 42.
    const HEAD_PLACE: usize = Records::WORDS;

    const HEAD_NUMBERS: usize = 20;

    const WAVEFORM_PLACE: usize = Kept::HEAD_PLACE + Kept::HEAD_NUMBERS;

    const WAVEFORM_NUMBERS: usize = 7;
}

// A word; 0 past the end.
pub fn word(w: &[u64], n: usize) -> u64
    ensures { result ≡ get_or w.now n 0 }
{
    w.get(n).copied().unwrap_or(0)
}

// The number of a word's four lowest octets.
pub fn four_at(w: &[u64], n: usize) -> u32
    ensures { result ≡ low_of 4 (get_or w.now n 0) }
{
    (word(w, n) % octets::FOUR_OCTETS) as u32
}

// Whether a word is true.
fn flag_at(w: &[u64], n: usize) -> bool
    ensures { result ≡ flag_of (get_or w.now n 0) }
{
    0 < word(w, n)
}

// The signed number of a word.
fn signed_of(x: u64) -> i64
    ensures { result ≡ twos 8 x }
{
    x.cast_signed()
}

// Where the cursor stands: outside a group or in one.
fn within_of(kind: u64, channel: u32, n: usize) -> Within
    ensures { result ≡ within_by kind channel n }
{
    if kind == 0 {
        return Within::Root;
    }
    if kind == 1 {
        return Within::Definite { channel, end: n };
    }
    Within::Open { channel, place: n }
}

// The cursor that words hold.
fn cursor_at(w: &[u64]) -> Cursor
    ensures { result ≡ cursor_by (words_at w.now head_place) }
{
    let within = within_of(word(w, 17), four_at(w, 18), word(w, 19) as usize);
    Cursor {
        at: word(w, 16) as usize,
        within,
    }
}

// What stands outside the channels' records, of these root settings and of words.
fn standing_at(w: &[u64], root: Settings) -> Standing
    ensures { result ≡ standing_by root (words_at w.now head_place) }
{
    Standing {
        little: flag_at(w, 20),
        counted: four_at(w, 21),
        sequences: four_at(w, 22),
        start: signed_of(word(w, 23)),
        continued: signed_of(word(w, 24)),
        root,
    }
}

// The times that words hold.
fn times_at(w: &[u64]) -> Times
    ensures { result ≡ times_by (words_at w.now head_place) }
{
    Times {
        block: four_at(w, 25),
        class: four_at(w, 26),
        lead: four_at(w, 27),
        datatype: four_at(w, 28),
        interval: four_at(w, 29),
        resolution: four_at(w, 30),
        offset: four_at(w, 31),
        null: four_at(w, 32),
    }
}

// The head that words hold.
pub fn head_at(w: &[u64]) -> Head
    ensures { result ≡ head_in w.now }
{
    let x = words::get(w, 0);
    let cursor = cursor_at(w);
    let standing = standing_at(w, x.settings);
    let times = times_at(w);
    Head {
        cursor,
        standing,
        dates: Dates {
            times,
            cleared: four_at(w, 33),
            now: x.at,
        },
        items: word(w, 34),
        frames: four_at(w, 35),
    }
}

// The frame that words tell of.
pub fn waveform_at(w: &[u64]) -> Waveform
    ensures { result ≡ waveform_in w.now }
{
    Waveform {
        start: signed_of(word(w, 36)),
        channels: four_at(w, 37),
        sequences: four_at(w, 38),
        little: flag_at(w, 39),
        place: word(w, 40) as usize,
        len: word(w, 41) as usize,
        octets: word(w, 42),
    }
}

// The word of true or false.
fn flag_word(b: bool) -> u64
    ensures { flag_of result ≡ b }
{
    u64::from(b)
}

// The words of a cursor's group.
fn within_words(x: Within) -> [u64; 3]
    ensures { within_by (get_or result 0 0) (low_of 4 (get_or result 1 0)) (get_or result 2 0) ≡ x }
{
    match x {
        Within::Root => [0, 0, 0],
        Within::Definite { channel, end } => [1, u64::from(channel), end as u64],
        Within::Open { channel, place } => [2, u64::from(channel), place as u64],
    }
}

// The words of a head's numbers, besides its record.
fn head_words(h: Head) -> [u64; Kept::HEAD_NUMBERS]
    ensures { head_by (root_of h) (λ a. get_or result a 0) ≡ h }
{
    let c = h.cursor;
    let stood = c.within;
    let within = within_words(stood);
    let st = h.standing;
    let dates = h.dates;
    let times = dates.times;
    [
        c.at as u64,
        within[0],
        within[1],
        within[2],
        flag_word(st.little),
        u64::from(st.counted),
        u64::from(st.sequences),
        words::signed_word(st.start),
        words::signed_word(st.continued),
        u64::from(times.block),
        u64::from(times.class),
        u64::from(times.lead),
        u64::from(times.datatype),
        u64::from(times.interval),
        u64::from(times.resolution),
        u64::from(times.offset),
        u64::from(times.null),
        u64::from(dates.cleared),
        h.items,
        u64::from(h.frames),
    ]
}

// The words of a frame's numbers.
fn waveform_words(v: Waveform) -> [u64; Kept::WAVEFORM_NUMBERS]
    ensures { told_by (λ a. get_or result a 0) ≡ v }
{
    [
        words::signed_word(v.start),
        u64::from(v.channels),
        u64::from(v.sequences),
        flag_word(v.little),
        v.place as u64,
        v.len as u64,
        v.octets,
    ]
}

// Stores words from place i on.
fn store(w: &mut [u64], i: usize, x: &[u64])
    requires { i + length x.now ≤ length w.old }
    ensures { Overlaid w.old i x.now (length x.now) w.new }
{
    let end = i + x.len();
    w[i..end].copy_from_slice(x);
}

// A head and a frame stored.
pub fn keep(w: &mut [u64], h: Head, v: Waveform)
    ensures { Keeping w.old h v w.new }
{
    if w.len() < Kept::HEAD {
        return;
    }
    let numbers = head_words(h);
    let frame = waveform_words(v);
    let dates = h.dates;
    let st = h.standing;
    let root = words::words_of(dates.note(st.root));
    store(w, Kept::HEAD_PLACE, &numbers);
    store(w, Kept::WAVEFORM_PLACE, &frame);
    store(w, 0, &root);
}
