// All samples there of the frame that a walk stands behind, channel after channel.
//
// For programs that take a frame whole: `sweep` writes the bits of all samples there of the first channel, then those of the next, into a buffer that the
// caller lends, with nothing of the file read but these samples.
// Promises, for any words and any octets: the whole answer is a definition of specs/, refusals too, and so is the buffer afterwards.
// Read first: crates strides and kept, then specs/Sweep.antt.
#![tactic(auto)]

ghost use Rattle.std.specs.Prelude.{◌≡◌, length};
ghost use Rattle.heads.specs.Answer.{map_answer, left_by, answer_of};
ghost use Rattle.sweep.specs.Sweep.{holds_frame, sweep_in};

use heads::{Fault, Refusal};
use kept::Kept;
use spread::Sequences;
use words::Records;

// Whether words hold a frame with a record for each of its channels.
fn holds_frame(w: &[u64]) -> bool
    ensures { result ≡ holds_frame w.now }
{
    if w.len() < Kept::HEAD {
        return false;
    }
    let v = kept::waveform_at(w);
    if v.channels == 0 {
        return false;
    }
    v.channels as usize <= (w.len() - Kept::HEAD) / Records::WORDS
}

// The bits of all samples there of the frame that the last step told of, channel after channel, at the front of the buffer: as many as fit or are there.
pub fn sweep(s: &[u8], w: &[u64], out: &mut [u64]) -> Result<usize, Refusal>
    ensures result_value { answer_of result ≡ map_answer length (sweep_in s.now w.now (length out.old)) }
    ensures out_after { out.new ≡ left_by (sweep_in s.now w.now (length out.old)) out.old }
{
    if holds_frame(w) {
        let v = kept::waveform_at(w);
        let rest = Kept::HEAD;
        let q = Sequences {
            count: v.sequences,
            little: v.little,
            place: v.place,
            long: v.len,
            octets: v.octets,
        };
        return strides::lay_channels(s, &w[rest..], q, v.channels, out);
    }
    Err(Refusal {
        fault: Fault::NoFrame,
        place: 0,
    })
}
