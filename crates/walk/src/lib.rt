// One walk over a file, from frame to frame.
//
// Promises, for any octets, any head and any words: `advance` goes from where a walk stands to the next frame, the end or the refusal, and answers
// where it stands then; the channels' records are in words that the caller lends, and at a frame those of its channels are up to date, with the octets
// of a sequence below each. After the end or a refusal it answers the same again.
// `Head::first`, with records that are all of the time before the first item, stands before a file's first item; the frames that the walk stops at
// from there on are the verdict's (proofs/Joins.antt).
// Read first: specs/Advance.antt, then specs/Joined.antt.
#![tactic(auto)]

ghost use Rattle.std.specs.Prelude.{◌≡◌, ◌≤◌};
ghost use Rattle.items.specs.Walk.{refusal};
ghost use Rattle.settings.specs.Settings.{channel_limit};
ghost use Rattle.verdict.specs.Verdict.{place_at};
ghost use Rattle.walk.specs.Advance.{waveform_by, moved_to, first_head, Advances};

use dated::Dates;
use effects::Effect;
use heads::{Fault, Refusal};
use items::{Cursor, Item};
use settings::Settings;
use standing::Standing;

// A frame, besides its channels' records: `octets` are those of a sequence.
#[derive(Clone, Copy)]
pub struct Waveform {
    pub start: i64,
    pub channels: u32,
    pub sequences: u32,
    pub little: bool,
    pub place: usize,
    pub len: usize,
    pub octets: u64,
}

// Where a walk stands, besides the channels' records.
#[derive(Clone, Copy)]
pub struct Head {
    pub cursor: Cursor,
    pub standing: Standing,
    pub dates: Dates,
    pub items: u64,
    pub frames: u32,
}

// What a walk has come to, and where it stands then.
#[derive(Clone, Copy)]
pub struct Moved {
    pub step: Result<Option<Waveform>, Refusal>,
    pub head: Head,
}

// A refused item decides at its place.
fn refused_at(fault: Fault, item: Item) -> Result<Option<Waveform>, Refusal>
    ensures { result ≡ Err (refusal fault (place_at item)) }
{
    Err(Refusal {
        fault,
        place: verdict::place_of(item),
    })
}

// A frame that is taken.
fn taken(st: Standing, n: usize, sequences: u32, start: usize, len: usize, octets: u64) -> Waveform
    requires { n ≤ channel_limit }
    ensures { result ≡ waveform_by st n sequences start len octets }
{
    Waveform {
        start: st.start,
        channels: n as u32,
        sequences,
        little: st.little,
        place: start,
        len,
        octets,
    }
}

// A walk that has come to a step.
fn come_to(
    step: Result<Option<Waveform>, Refusal>,
    cursor: Cursor,
    standing: Standing,
    dates: Dates,
    items: u64,
    frames: u32,
) -> Moved
    ensures { result ≡ moved_to step cursor standing dates items frames }
{
    Moved {
        step,
        head: Head {
            cursor,
            standing,
            dates,
            items,
            frames,
        },
    }
}

impl Head {
    // Before the first item of a file.
    pub fn first() -> Head
        ensures { result ≡ first_head }
    {
        let cursor = Cursor::first();
        let standing = Standing::first();
        let dates = Dates::first();
        Head {
            cursor,
            standing,
            dates,
            items: 0,
            frames: 0,
        }
    }
}

// From where a walk stands to the next frame, the end or the refusal.
pub fn advance(s: &[u8], h: Head, t: &mut [u64]) -> Moved
    ensures { Advances s.now h t.old result t.new }
{
    let mut c = h.cursor;
    let mut st = h.standing;
    let mut dates = h.dates;
    let mut items = h.items;
    let frames = h.frames;
    loop {
        match items::next_item(s, c) {
            Ok(None) => {
                return come_to(Ok(None), c, st, dates, items, frames);
            }
            Err(x) => {
                return come_to(Err(x), c, st, dates, items, frames);
            }
            Ok(Some((item, next))) => {
                let d = next.renewed();
                let read = std::num::wrapping_add_u64(items, 1);
                match effects::item_effect(s, st, item) {
                    Err(fault) => {
                        return come_to(refused_at(fault, item), c, st, dates, items, frames);
                    }
                    Ok(effect) => match effect {
                        Effect::Count(_) => {
                            dates = dates.cleared();
                            st = effects::standing_after(st, effect);
                            c = d;
                            items = read;
                        }
                        Effect::All(change) => {
                            dates = dates.defined(change);
                            st = effects::standing_after(st, effect);
                            c = d;
                            items = read;
                        }
                        Effect::One(channel, change) => {
                            let k = channel as usize;
                            let stood = records::settled(t, k, st.root, dates);
                            words::put(t, k, dates.note(settings::apply(stood, change)));
                            c = d;
                            items = read;
                        }
                        Effect::Frame { start, len } => {
                            let count = framing::channels_of(st.counted) as usize;
                            let n = records::at_most(t, count);
                            let l = records::refresh(t, count, st.root, dates);
                            match framing::frame_of(frames, st, l.agree, l.octets, len) {
                                Err(fault) => {
                                    let refused = refused_at(fault, item);
                                    return come_to(refused, c, st, dates, items, frames);
                                }
                                Ok((sequences, after)) => {
                                    let frame = taken(st, n, sequences, start, len, l.octets);
                                    return come_to(
                                        Ok(Some(frame)),
                                        d,
                                        after,
                                        dates,
                                        read,
                                        frames + 1,
                                    );
                                }
                            }
                        }
                        _ => {
                            st = effects::standing_after(st, effect);
                            c = d;
                            items = read;
                        }
                    },
                }
            }
        }
    }
}
