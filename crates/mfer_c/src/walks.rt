// A walk over a file, held by a caller in C as an array of words.
ghost use Rattle.std.specs.Prelude.{◌≡◌, min, length};
ghost use Rattle.heads.specs.Answer.{map_answer, left_by};
ghost use Rattle.verdict.specs.Verdict.{check_of};
ghost use Rattle.bulk.specs.Samples.{kinds_in, wholes_in};
ghost use Rattle.walking.specs.Steps.{Opened};
ghost use Rattle.walking.specs.Views.{view_in};
ghost use Rattle.sweep.specs.Sweep.{sweep_in};
ghost use Rattle.outputs.specs.Outputs.{outputs, count_out};
ghost use Rattle.outputs.specs.Walks.{frame_values, channel_values, channel_out};
ghost use Rattle.tour.specs.Tour.{walk_there, walk_read, walk_values};
ghost use Rattle.mfer.specs.Walks.{WalkNext};

use walking::Walking;

#[unsafe(no_mangle)]
pub extern "C" fn mfer_walk_open(
    file: &[u8],
    walk: &mut [u64; Walking::WORDS],
    frames: &mut u64,
    place: &mut u64,
) -> u32
    ensures frames_after { outputs result place.new frames.new ≡ count_out (check_of file.now) }
    ensures opened { Opened file.now walk.old walk.new }
{
    mfer::mfer_walk_open(file, walk, frames, place)
}

#[unsafe(no_mangle)]
pub extern "C" fn mfer_walk_next(
    file: &[u8],
    walk: &mut [u64; Walking::WORDS],
    start: &mut i64,
    frame: &mut [u64; numbers::FRAME_NUMBERS],
    place: &mut u64,
) -> u32
    ensures { WalkNext file.now walk.old (outputs result place.new (frame_values start.new frame.new)) walk.new }
{
    mfer::mfer_walk_next(file, walk, start, frame, place)
}

#[unsafe(no_mangle)]
pub extern "C" fn mfer_walk_channel(
    walk: &[u64; Walking::WORDS],
    channel: u32,
    numbers: &mut [i64; numbers::NUMBERS],
    bits: &mut [u64; 2],
    below: &mut u64,
    place: &mut u64,
) -> u32
    ensures { outputs result place.new (channel_values numbers.new bits.new below.new) ≡ channel_out (view_in walk.now channel) }
{
    mfer::mfer_walk_channel(walk, channel, numbers, bits, below, place)
}

#[unsafe(no_mangle)]
pub extern "C" fn mfer_walk_samples_there(
    walk: &[u64; Walking::WORDS],
    channel: u32,
    count: &mut u64,
    place: &mut u64,
) -> u32
    ensures { outputs result place.new count.new ≡ count_out (walk_there walk.now channel) }
{
    mfer::mfer_walk_samples_there(walk, channel, count, place)
}

#[unsafe(no_mangle)]
pub extern "C" fn mfer_walk_samples(
    file: &[u8],
    walk: &[u64; Walking::WORDS],
    channel: u32,
    first: u64,
    out: &mut [u64],
    count: &mut u64,
    place: &mut u64,
) -> u32
    ensures count_after { outputs result place.new count.new ≡ count_out (map_answer length (walk_read file.now walk.now channel first (length out.old))) }
    ensures out_after { out.new ≡ left_by (walk_read file.now walk.now channel first (length out.old)) out.old }
{
    mfer::mfer_walk_samples(file, walk, channel, first, out, count, place)
}

#[unsafe(no_mangle)]
pub extern "C" fn mfer_walk_frame(
    file: &[u8],
    walk: &[u64; Walking::WORDS],
    out: &mut [u64],
    count: &mut u64,
    place: &mut u64,
) -> u32
    ensures count_after { outputs result place.new count.new ≡ count_out (map_answer length (sweep_in file.now walk.now (length out.old))) }
    ensures out_after { out.new ≡ left_by (sweep_in file.now walk.now (length out.old)) out.old }
{
    mfer::mfer_walk_frame(file, walk, out, count, place)
}

#[unsafe(no_mangle)]
pub extern "C" fn mfer_walk_values(
    file: &[u8],
    walk: &[u64; Walking::WORDS],
    channel: u32,
    first: u64,
    kinds: &mut [u8],
    wholes: &mut [i64],
    count: &mut u64,
    place: &mut u64,
) -> u32
    ensures count_after { outputs result place.new count.new ≡ count_out (map_answer length (walk_values file.now walk.now channel first (min (length kinds.old) (length wholes.old)))) }
    ensures kinds_after { kinds.new ≡ left_by (kinds_in (walk_values file.now walk.now channel first (min (length kinds.old) (length wholes.old)))) kinds.old }
    ensures wholes_after { wholes.new ≡ left_by (wholes_in (walk_values file.now walk.now channel first (min (length kinds.old) (length wholes.old)))) wholes.old }
{
    mfer::mfer_walk_values(file, walk, channel, first, kinds, wholes, count, place)
}
