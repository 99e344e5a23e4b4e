// What the functions for C hand out: a refusal's number, a place, and an answer of each kind as plain numbers.
//
// Promises, for any answer: the result is the number of the refusal, 0 where there is none; every output is set in every case, and at a refusal all are
// 0 but `place`, which is the refusal's. Nothing here reads a file; crate mfer puts these around the functions that do.
// Read first: crate numbers, then specs/Outputs.antt and specs/Walks.antt.
#![tactic(auto)]

ghost use Rattle.std.specs.Prelude.{◌≡◌};
ghost use Rattle.heads.specs.Answer.{answer_of};
ghost use Rattle.reader.specs.Answer.{sampled_says};
ghost use Rattle.walk.specs.Says.{step_says};
ghost use Rattle.outputs.specs.Outputs.{outputs, count_out, attributes_values, attributes_out, sample_values, sample_out};
ghost use Rattle.outputs.specs.Walks.{frame_values, frame_out, channel_values, channel_out};

use heads::{Fault, Refusal};
use reader::{Attributes, Reading};
use view::View;
use walk::Waveform;

// A count, or the refusal.
pub fn count_out(r: Result<usize, Refusal>, count: &mut u64, place: &mut u64) -> u32
    ensures { outputs result place.new count.new ≡ count_out (answer_of r) }
{
    match r {
        Ok(n) => {
            *count = n as u64;
            *place = 0;
            0
        }
        Err(x) => {
            *count = 0;
            *place = x.place as u64;
            x.fault.number() as u32
        }
    }
}

// How many frames a file has, or the refusal.
pub fn checked_out(r: Result<u32, Refusal>, frames: &mut u64, place: &mut u64) -> u32
    ensures { outputs result place.new frames.new ≡ count_out (answer_of r) }
{
    match r {
        Ok(n) => count_out(Ok(n as usize), frames, place),
        Err(x) => count_out(Err(x), frames, place),
    }
}

// The attributes of a channel, or the refusal.
pub fn described_out(
    r: Result<Attributes, Refusal>,
    numbers: &mut [i64; numbers::NUMBERS],
    bits: &mut [u64; 2],
    place: &mut u64,
) -> u32
    ensures { outputs result place.new (attributes_values numbers.new bits.new) ≡ attributes_out (answer_of r) }
{
    match r {
        Ok(a) => {
            *numbers = numbers::numbers_of(a);
            *bits = numbers::bit_pair_of(a);
            *place = 0;
            0
        }
        Err(x) => {
            *numbers = [0; numbers::NUMBERS];
            *bits = [0; 2];
            *place = x.place as u64;
            x.fault.number() as u32
        }
    }
}

// A sample: its place, its kind, its number where it is whole, and its bits; or the refusal.
pub fn sampled_out(
    r: Result<Reading, Refusal>,
    place: &mut u64,
    kind: &mut u32,
    whole: &mut i64,
    bits: &mut u64,
) -> u32
    ensures { outputs result place.new (sample_values kind.new whole.new bits.new) ≡ sample_out (sampled_says r) }
{
    match r {
        Ok(x) => {
            let value = x.value;
            *place = x.place as u64;
            *kind = numbers::kind_of(value);
            *whole = numbers::whole_of(value);
            *bits = x.bits;
            0
        }
        Err(x) => {
            *place = x.place as u64;
            *kind = 0;
            *whole = 0;
            *bits = 0;
            x.fault.number() as u32
        }
    }
}

// The frame that a walk has come to, or the refusal; 20 at its end.
pub fn step_out(
    r: Result<Option<Waveform>, Refusal>,
    start: &mut i64,
    frame: &mut [u64; numbers::FRAME_NUMBERS],
    place: &mut u64,
) -> u32
    ensures { outputs result place.new (frame_values start.new frame.new) ≡ frame_out (step_says r) }
{
    match r {
        Ok(Some(v)) => {
            let from = v.start;
            *start = from;
            *frame = numbers::frame_numbers(v);
            *place = 0;
            0
        }
        Ok(None) => {
            *start = 0;
            *frame = [0; numbers::FRAME_NUMBERS];
            *place = 0;
            Fault::NoFrame.number() as u32
        }
        Err(x) => {
            *start = 0;
            *frame = [0; numbers::FRAME_NUMBERS];
            *place = x.place as u64;
            x.fault.number() as u32
        }
    }
}

// A channel that is looked up: its attributes, and the octets of a sequence that lie below it; or the refusal.
pub fn looked_up_out(
    r: Result<View, Refusal>,
    numbers: &mut [i64; numbers::NUMBERS],
    bits: &mut [u64; 2],
    below: &mut u64,
    place: &mut u64,
) -> u32
    ensures { outputs result place.new (channel_values numbers.new bits.new below.new) ≡ channel_out (answer_of r) }
{
    match r {
        Ok(v) => {
            let a = reader::attributes_seen(v);
            *numbers = numbers::numbers_of(a);
            *bits = numbers::bit_pair_of(a);
            *below = v.below;
            *place = 0;
            0
        }
        Err(x) => {
            *numbers = [0; numbers::NUMBERS];
            *bits = [0; 2];
            *below = 0;
            *place = x.place as u64;
            x.fault.number() as u32
        }
    }
}
