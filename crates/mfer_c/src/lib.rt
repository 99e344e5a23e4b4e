// The functions of crate mfer under their C names, for the archive libmfer.a.
//
// Each calls the function of crate mfer that has its name, where it is told what it answers, and has the same clauses. A slice passes as a pointer and a length.
// The header is include/mfer.h.
#![tactic(auto)]

ghost use Rattle.std.specs.Prelude.{◌≡◌, min, length};
ghost use Rattle.heads.specs.Answer.{map_answer, left_by};
ghost use Rattle.verdict.specs.Verdict.{check_of};
ghost use Rattle.reader.specs.Answer.{attributes_of, sample_of};
ghost use Rattle.bulk.specs.Samples.{there_at, read_of, values_of, kinds_in, wholes_in, count_read};
ghost use Rattle.canonical.specs.Write.{canonical_length_of};
ghost use Rattle.outputs.specs.Outputs.{outputs, count_out, attributes_values, attributes_out, sample_values, sample_out};
ghost use Rattle.maker.specs.Make.{making};
ghost use Rattle.mfer.specs.Answers.{CanonicalOut, MadeOut};

mod walks;

#[unsafe(no_mangle)]
pub extern "C" fn mfer_check(file: &[u8], frames: &mut u64, place: &mut u64) -> u32
    ensures { outputs result place.new frames.new ≡ count_out (check_of file.now) }
{
    mfer::mfer_check(file, frames, place)
}

#[unsafe(no_mangle)]
pub extern "C" fn mfer_attributes(
    file: &[u8],
    frame: u32,
    channel: u32,
    numbers: &mut [i64; numbers::NUMBERS],
    bits: &mut [u64; 2],
    place: &mut u64,
) -> u32
    ensures { outputs result place.new (attributes_values numbers.new bits.new) ≡ attributes_out (attributes_of file.now frame channel) }
{
    mfer::mfer_attributes(file, frame, channel, numbers, bits, place)
}

#[unsafe(no_mangle)]
pub extern "C" fn mfer_sample(
    file: &[u8],
    frame: u32,
    channel: u32,
    number: u64,
    place: &mut u64,
    kind: &mut u32,
    whole: &mut i64,
    bits: &mut u64,
) -> u32
    ensures { outputs result place.new (sample_values kind.new whole.new bits.new) ≡ sample_out (sample_of file.now frame channel number) }
{
    mfer::mfer_sample(file, frame, channel, number, place, kind, whole, bits)
}

#[unsafe(no_mangle)]
pub extern "C" fn mfer_samples_there(
    file: &[u8],
    frame: u32,
    channel: u32,
    count: &mut u64,
    place: &mut u64,
) -> u32
    ensures { outputs result place.new count.new ≡ count_out (there_at file.now frame channel) }
{
    mfer::mfer_samples_there(file, frame, channel, count, place)
}

#[unsafe(no_mangle)]
pub extern "C" fn mfer_samples(
    file: &[u8],
    frame: u32,
    channel: u32,
    first: u64,
    out: &mut [u64],
    count: &mut u64,
    place: &mut u64,
) -> u32
    ensures count_after { outputs result place.new count.new ≡ count_out (count_read file.now frame channel first (length out.old)) }
    ensures out_after { out.new ≡ left_by (read_of file.now frame channel first (length out.old)) out.old }
{
    mfer::mfer_samples(file, frame, channel, first, out, count, place)
}

#[unsafe(no_mangle)]
pub extern "C" fn mfer_values(
    file: &[u8],
    frame: u32,
    channel: u32,
    first: u64,
    kinds: &mut [u8],
    wholes: &mut [i64],
    count: &mut u64,
    place: &mut u64,
) -> u32
    ensures count_after { outputs result place.new count.new ≡ count_out (map_answer length (values_of file.now frame channel first (min (length kinds.old) (length wholes.old)))) }
    ensures kinds_after { kinds.new ≡ left_by (kinds_in (values_of file.now frame channel first (min (length kinds.old) (length wholes.old)))) kinds.old }
    ensures wholes_after { wholes.new ≡ left_by (wholes_in (values_of file.now frame channel first (min (length kinds.old) (length wholes.old)))) wholes.old }
{
    mfer::mfer_values(file, frame, channel, first, kinds, wholes, count, place)
}

#[unsafe(no_mangle)]
pub extern "C" fn mfer_canonical_length(file: &[u8], length: &mut u64, place: &mut u64) -> u32
    ensures { outputs result place.new length.new ≡ count_out (canonical_length_of file.now) }
{
    mfer::mfer_canonical_length(file, length, place)
}

#[unsafe(no_mangle)]
pub extern "C" fn mfer_canonical(
    file: &[u8],
    out: &mut [u8],
    written: &mut u64,
    place: &mut u64,
) -> u32
    ensures { CanonicalOut file.now out.old (outputs result place.new written.new) out.new }
{
    mfer::mfer_canonical(file, out, written, place)
}

#[unsafe(no_mangle)]
pub extern "C" fn mfer_make_frame(
    start: i64,
    sequences: u64,
    channels: u64,
    numbers: &[i64],
    bits: &[u64],
    samples: &[u8],
    out: &mut [u8],
    written: &mut u64,
    place: &mut u64,
) -> u32
    ensures { MadeOut (making start sequences channels numbers.now bits.now samples.now) out.old (outputs result place.new written.new) out.new }
{
    mfer::mfer_make_frame(
        start, sequences, channels, numbers, bits, samples, out, written, place,
    )
}
