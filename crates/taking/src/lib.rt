// One item carried out where a walk stands.
//
// For a reader that gets its items one by one, as their octets arrive: `take` does with an effect what a walk does with the item that has it.
// Promises, for any words, any head and any effect: what is answered and how the words are left is a definition of specs/.
// Read first: crate walk, then specs/Takes.antt.
#![tactic(auto)]

ghost use Rattle.std.specs.Prelude.{◌≡◌, ◌<◌, ◌≤◌};
ghost use Rattle.settings.specs.Settings.{channel_limit};
ghost use Rattle.standing.specs.Standing.{frames_limit};
ghost use Rattle.walk.specs.Advance.{waveform_by};
ghost use Rattle.taking.specs.Takes.{went_on, stopped_at, stopped_behind, Takes};

use dated::Dates;
use effects::Effect;
use heads::{Fault, Refusal};
use items::Cursor;
use standing::Standing;
use walk::{Head, Waveform};

// What became of an item, and where the walk stands then: it led on and there is none, or the walk stops behind its frame or at its refusal.
#[derive(Clone, Copy)]
pub struct Taken {
    pub went: Result<Option<Waveform>, Refusal>,
    pub head: Head,
}

// An item that leads on.
fn leads_on(h: Head, cursor: Cursor, standing: Standing, dates: Dates) -> Taken
    ensures { result ≡ went_on h cursor standing dates }
{
    Taken {
        went: Ok(None),
        head: Head {
            cursor,
            standing,
            dates,
            items: std::num::wrapping_add_u64(h.items, 1),
            frames: h.frames,
        },
    }
}

// A refused item decides at its place.
fn stops_at(h: Head, fault: Fault, place: usize) -> Taken
    ensures { result ≡ stopped_at h fault place }
{
    Taken {
        went: Err(Refusal { fault, place }),
        head: h,
    }
}

// A frame that is taken.
fn stops_behind(h: Head, cursor: Cursor, after: Standing, frame: Waveform) -> Taken
    requires { h.frames < frames_limit }
    ensures { result ≡ stopped_behind h cursor after frame }
{
    let dates = h.dates;
    Taken {
        went: Ok(Some(frame)),
        head: Head {
            cursor,
            standing: after,
            dates,
            items: std::num::wrapping_add_u64(h.items, 1),
            frames: h.frames + 1,
        },
    }
}

// What a frame is told by, besides its channels' records.
fn waveform_of(
    st: Standing,
    n: usize,
    sequences: u32,
    start: usize,
    len: usize,
    octets: u64,
) -> Waveform
    requires { n ≤ channel_limit }
    ensures { result ≡ waveform_by st n sequences start len octets }
{
    Waveform {
        start: st.start,
        channels: n as u32,
        sequences,
        little: st.little,
        place: start,
        len,
        octets,
    }
}

// A waveform gives a frame, or is refused. Either way the records of its channels are brought up to date.
fn frames(t: &mut [u64], h: Head, cursor: Cursor, place: usize, start: usize, len: usize) -> Taken
    ensures { Takes t.old h cursor place (Ok (Effect.Frame start len)) result t.new }
{
    let st = h.standing;
    let count = framing::channels_of(st.counted) as usize;
    let n = records::at_most(t, count);
    let l = records::refresh(t, count, st.root, h.dates);
    match framing::frame_of(h.frames, st, l.agree, l.octets, len) {
        Err(fault) => stops_at(h, fault, place),
        Ok((sequences, after)) => {
            let frame = waveform_of(st, n, sequences, start, len, l.octets);
            stops_behind(h, cursor, after, frame)
        }
    }
}

// An item with this effect or fault, whose tag stands at `place` and behind which the cursor stands.
pub fn take(
    t: &mut [u64],
    h: Head,
    cursor: Cursor,
    place: usize,
    effect: Result<Effect, Fault>,
) -> Taken
    ensures { Takes t.old h cursor place effect result t.new }
{
    let st = h.standing;
    let dates = h.dates;
    match effect {
        Err(fault) => stops_at(h, fault, place),
        Ok(asked) => match asked {
            Effect::Count(_) => {
                let after = effects::standing_after(st, asked);
                leads_on(h, cursor, after, dates.cleared())
            }
            Effect::All(change) => {
                let after = effects::standing_after(st, asked);
                leads_on(h, cursor, after, dates.defined(change))
            }
            Effect::One(channel, change) => {
                let k = channel as usize;
                let stood = records::settled(t, k, st.root, dates);
                words::put(t, k, dates.note(settings::apply(stood, change)));
                leads_on(h, cursor, st, dates)
            }
            Effect::Frame { start, len } => frames(t, h, cursor, place, start, len),
            _ => {
                let after = effects::standing_after(st, asked);
                leads_on(h, cursor, after, dates)
            }
        },
    }
}
