// A walk that a caller holds as plain words.
//
// The first words hold the head and what the last step told of a frame (crate kept), the rest the channels' records (crate words). Any words at all
// are some walk.
// Promises, for any words and any octets: `begin` begins a walk; `open` checks a file, and the words begin a walk over one that is accepted; `next` goes from where they stand
// to the next frame, the end or the refusal; `view_at` answers a channel of the frame that the last step told of. Words too few for a head stay as they
// are, and are at the end. That the frames of an opened file are the verdict's is proved in proofs/Walked.antt.
// Read first: crate walk, then specs/Words.antt and specs/Steps.antt.
#![tactic(auto)]

ghost use Rattle.std.specs.Prelude.{◌≡◌, ◌≤◌, length};
ghost use Rattle.heads.specs.Answer.{answer_of};
ghost use Rattle.kept.specs.Words.{head_words, holds_head};
ghost use Rattle.walking.specs.Views.{view_kept, view_in};
ghost use Rattle.walking.specs.Steps.{no_waveform, frame_told, Begun, Opens, Goes};

use heads::{Fault, Refusal};
use kept::Kept;
use view::View;
use walk::{Head, Waveform};
use words::Records;

// The size of a walk kept in words.
#[derive(Clone, Copy)]
pub struct Walking {}

impl Walking {
    // Words of a walk that has a record for each channel that a frame may have.
    pub const WORDS: usize = Kept::HEAD + Records::TABLE;
}

// No frame.
pub fn no_waveform() -> Waveform
    ensures { result ≡ no_waveform }
{
    Waveform {
        start: 0,
        channels: 0,
        sequences: 0,
        little: false,
        place: 0,
        len: 0,
        octets: 0,
    }
}

// What a step tells of a frame.
fn frame_told(step: Result<Option<Waveform>, Refusal>) -> Waveform
    ensures { result ≡ frame_told step }
{
    match step {
        Ok(Some(v)) => v,
        Ok(None) => no_waveform(),
        Err(_) => no_waveform(),
    }
}

// Words that can hold a head begin a walk.
pub fn begin(w: &mut [u64])
    ensures { Begun (holds_head w.old) w.old w.new }
{
    if w.len() < Kept::HEAD {
        return;
    }
    let rest = Kept::HEAD;
    records::clear(&mut w[rest..]);
    kept::keep(w, Head::first(), no_waveform());
}

// Checks a file; the words begin a walk over one that is accepted.
pub fn open(s: &[u8], w: &mut [u64]) -> Result<u32, Refusal>
    ensures { Opens s.now w.old result w.new }
{
    let n = reader::check(s)?;
    begin(w);
    Ok(n)
}

// From where words stand to the next frame, the end or the refusal.
pub fn next(s: &[u8], w: &mut [u64]) -> Result<Option<Waveform>, Refusal>
    ensures { Goes s.now w.old result w.new }
{
    if w.len() < Kept::HEAD {
        return Ok(None);
    }
    let rest = Kept::HEAD;
    let h = kept::head_at(w);
    let m = walk::advance(s, h, &mut w[rest..]);
    let step = m.step;
    kept::keep(w, m.head, frame_told(step));
    step
}

// A channel of the frame that the last step told of.
fn view_kept(w: &[u64], channel: u32) -> View
    requires { head_words ≤ length w.now }
    ensures { result ≡ view_kept w.now channel }
{
    let v = kept::waveform_at(w);
    let rest = Kept::HEAD;
    let t = &w[rest..];
    let settings = words::held(t, channel as usize);
    View {
        start: v.start,
        channels: v.channels,
        sequences: v.sequences,
        little: v.little,
        place: v.place,
        long: v.len,
        octets: v.octets,
        below: words::below(t, channel as usize),
        settings,
    }
}

// The same, or why there is none: 20, then 21.
pub fn view_at(w: &[u64], channel: u32) -> Result<View, Refusal>
    ensures { answer_of result ≡ view_in w.now channel }
{
    let none = Refusal {
        fault: Fault::NoFrame,
        place: 0,
    };
    if w.len() < Kept::HEAD {
        return Err(none);
    }
    let v = kept::waveform_at(w);
    if v.channels == 0 {
        return Err(none);
    }
    if v.channels <= channel {
        return Err(Refusal {
            fault: Fault::NoChannel,
            place: 0,
        });
    }
    Ok(view_kept(w, channel))
}
