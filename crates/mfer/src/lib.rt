// The functions for C: plain numbers and buffers in, a refusal's number out. Crate mfer_c exports them under their names.
//
// Every function answers for any octets at all. Its result is the number of the refusal, 0 where there is none; every output is set in
// every case, and at a refusal all are 0 but `place`, which is the refusal's. A slice passes as a pointer and a length.
// Each function is thin over the crate that has its meaning; crate outputs turns what that answers into outputs.
// Read first: specs/Outputs.antt of crate outputs, then specs/Answers.antt.
#![tactic(auto)]

ghost use Rattle.std.specs.Prelude.{◌≡◌, min, length};
ghost use Rattle.heads.specs.Answer.{map_answer, left_by};
ghost use Rattle.verdict.specs.Verdict.{check_of};
ghost use Rattle.reader.specs.Answer.{attributes_of, sample_of};
ghost use Rattle.bulk.specs.Samples.{there_at, read_of, values_of, kinds_in, wholes_in, count_read};
ghost use Rattle.canonical.specs.Write.{canonical_length_of};
ghost use Rattle.outputs.specs.Outputs.{outputs, count_out, attributes_values, attributes_out, sample_values, sample_out};
ghost use Rattle.maker.specs.Make.{making};
ghost use Rattle.mfer.specs.Answers.{CanonicalOut, MadeOut};

mod walks;

pub use walks::{
    mfer_walk_channel, mfer_walk_frame, mfer_walk_next, mfer_walk_open, mfer_walk_samples,
    mfer_walk_samples_there, mfer_walk_values,
};

// Checks a file: how many frames it has.
pub fn mfer_check(file: &[u8], frames: &mut u64, place: &mut u64) -> u32
    ensures { outputs result place.new frames.new ≡ count_out (check_of file.now) }
{
    outputs::checked_out(reader::check(file), frames, place)
}

// The attributes of a channel in a frame. `numbers` are start pointer, channels, sequences, block length, class, lead code, data type,
// the interval's unit, exponent and mantissa, the resolution's, sample width and null width (0: no null); `bits` are the offset's and
// null's.
pub fn mfer_attributes(
    file: &[u8],
    frame: u32,
    channel: u32,
    numbers: &mut [i64; numbers::NUMBERS],
    bits: &mut [u64; 2],
    place: &mut u64,
) -> u32
    ensures { outputs result place.new (attributes_values numbers.new bits.new) ≡ attributes_out (attributes_of file.now frame channel) }
{
    outputs::described_out(reader::describe(file, frame, channel), numbers, bits, place)
}

// A sample: its place in the file, its kind (0 whole, 1 status, 2 single, 3 double, 4 not-a-number, 5 null, 6 no data), its number where it is
// whole, and its bits as the file has them. No data is the kind of a sample that is declared and not there: its place and its bits are 0.
pub fn mfer_sample(
    file: &[u8],
    frame: u32,
    channel: u32,
    number: u64,
    place: &mut u64,
    kind: &mut u32,
    whole: &mut i64,
    bits: &mut u64,
) -> u32
    ensures { outputs result place.new (sample_values kind.new whole.new bits.new) ≡ sample_out (sample_of file.now frame channel number) }
{
    outputs::sampled_out(
        reader::sample(file, frame, channel, number),
        place,
        kind,
        whole,
        bits,
    )
}

// How many samples of a channel are there.
pub fn mfer_samples_there(
    file: &[u8],
    frame: u32,
    channel: u32,
    count: &mut u64,
    place: &mut u64,
) -> u32
    ensures { outputs result place.new count.new ≡ count_out (there_at file.now frame channel) }
{
    outputs::count_out(bulk::there(file, frame, channel), count, place)
}

// The bits of a channel's samples from number `first` on, as the file has them, at the front of `out`: as many as fit or are there, and
// how many. The rest of `out`, and at a refusal all of it, keeps what it held.
pub fn mfer_samples(
    file: &[u8],
    frame: u32,
    channel: u32,
    first: u64,
    out: &mut [u64],
    count: &mut u64,
    place: &mut u64,
) -> u32
    ensures count_after { outputs result place.new count.new ≡ count_out (count_read file.now frame channel first (length out.old)) }
    ensures out_after { out.new ≡ left_by (read_of file.now frame channel first (length out.old)) out.old }
{
    outputs::count_out(
        bulk::samples(file, frame, channel, first, out),
        count,
        place,
    )
}

// The values of a channel's samples from number `first` on, at the fronts of `kinds` and `wholes`: each sample's kind, as `mfer_sample` numbers
// them, and its number where it is whole, else 0; as many as fit in both or are there, and how many. The rest of both, and at a refusal all of them,
// keeps what it held.
pub fn mfer_values(
    file: &[u8],
    frame: u32,
    channel: u32,
    first: u64,
    kinds: &mut [u8],
    wholes: &mut [i64],
    count: &mut u64,
    place: &mut u64,
) -> u32
    ensures count_after { outputs result place.new count.new ≡ count_out (map_answer length (values_of file.now frame channel first (min (length kinds.old) (length wholes.old)))) }
    ensures kinds_after { kinds.new ≡ left_by (kinds_in (values_of file.now frame channel first (min (length kinds.old) (length wholes.old)))) kinds.old }
    ensures wholes_after { wholes.new ≡ left_by (wholes_in (values_of file.now frame channel first (min (length kinds.old) (length wholes.old)))) wholes.old }
{
    outputs::count_out(
        bulk::values(file, frame, channel, first, kinds, wholes),
        count,
        place,
    )
}

// The length of the canonical file of a file. Nothing is written.
pub fn mfer_canonical_length(file: &[u8], length: &mut u64, place: &mut u64) -> u32
    ensures { outputs result place.new length.new ≡ count_out (canonical_length_of file.now) }
{
    outputs::count_out(canonical::canonical_length(file), length, place)
}

// Writes the canonical file of a file into the front of `out`: how long it is. The rest of `out`, and at a refusal all of it, keeps what it
// held.
pub fn mfer_canonical(file: &[u8], out: &mut [u8], written: &mut u64, place: &mut u64) -> u32
    ensures { CanonicalOut file.now out.old (outputs result place.new written.new) out.new }
{
    outputs::count_out(canonical::write_canonical(file, out), written, place)
}

// Makes a frame into the front of `out`, as the canonical file has it: how long it is. `numbers` and `bits` are a row for each channel, as mfer_attributes tells
// them; `samples` are big-endian and in file order. The rest of `out`, and at a refusal all of it, keeps what it held.
pub fn mfer_make_frame(
    start: i64,
    sequences: u64,
    channels: u64,
    numbers: &[i64],
    bits: &[u64],
    samples: &[u8],
    out: &mut [u8],
    written: &mut u64,
    place: &mut u64,
) -> u32
    ensures { MadeOut (making start sequences channels numbers.now bits.now samples.now) out.old (outputs result place.new written.new) out.new }
{
    outputs::count_out(
        maker::make_frame(start, sequences, channels, numbers, bits, samples, out),
        written,
        place,
    )
}
