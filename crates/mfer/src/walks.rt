// A walk over a file, held by a caller in C as an array of words.
//
// `mfer_walk_open` checks the file and begins the walk, `mfer_walk_next` goes to its next frame, `mfer_walk_channel`, `mfer_walk_samples_there`, `mfer_walk_samples` and
// `mfer_walk_values` tell of a channel of the frame that it stands behind and `mfer_walk_frame` of all of them, with nothing read again. Any words at all are some walk.
// Read first: specs/Walks.antt, specs/Steps.antt and specs/Views.antt of crate walking, and specs/Tour.antt of crate tour.
ghost use Rattle.std.specs.Prelude.{◌≡◌, min, length};
ghost use Rattle.heads.specs.Answer.{map_answer, left_by};
ghost use Rattle.verdict.specs.Verdict.{check_of};
ghost use Rattle.bulk.specs.Samples.{kinds_in, wholes_in};
ghost use Rattle.walking.specs.Steps.{Opened};
ghost use Rattle.walking.specs.Views.{view_in};
ghost use Rattle.sweep.specs.Sweep.{sweep_in};
ghost use Rattle.outputs.specs.Outputs.{outputs, count_out};
ghost use Rattle.outputs.specs.Walks.{frame_values, channel_values, channel_out};
ghost use Rattle.tour.specs.Tour.{walk_there, walk_read, walk_values};
ghost use Rattle.mfer.specs.Walks.{WalkNext};

use walking::Walking;

// Opens a walk over a file, which is checked: how many frames it has. The words of `walk` begin the walk; at a refusal they keep what they held.
pub fn mfer_walk_open(
    file: &[u8],
    walk: &mut [u64; Walking::WORDS],
    frames: &mut u64,
    place: &mut u64,
) -> u32
    ensures frames_after { outputs result place.new frames.new ≡ count_out (check_of file.now) }
    ensures opened { Opened file.now walk.old walk.new }
{
    outputs::checked_out(walking::open(file, walk), frames, place)
}

// The next frame of a walk: its start pointer, and in `frame` its channels, sequences, byte order (1: little-endian), the place and the length of its
// waveform, and the octets of a sequence. Behind the last frame it is refusal 20.
pub fn mfer_walk_next(
    file: &[u8],
    walk: &mut [u64; Walking::WORDS],
    start: &mut i64,
    frame: &mut [u64; numbers::FRAME_NUMBERS],
    place: &mut u64,
) -> u32
    ensures { WalkNext file.now walk.old (outputs result place.new (frame_values start.new frame.new)) walk.new }
{
    outputs::step_out(walking::next(file, walk), start, frame, place)
}

// A channel of the frame that a walk stands behind: its attributes, as mfer_attributes has them, and the octets of a sequence that lie below it.
pub fn mfer_walk_channel(
    walk: &[u64; Walking::WORDS],
    channel: u32,
    numbers: &mut [i64; numbers::NUMBERS],
    bits: &mut [u64; 2],
    below: &mut u64,
    place: &mut u64,
) -> u32
    ensures { outputs result place.new (channel_values numbers.new bits.new below.new) ≡ channel_out (view_in walk.now channel) }
{
    outputs::looked_up_out(walking::view_at(walk, channel), numbers, bits, below, place)
}

// How many samples of a channel are there, of the frame that a walk stands behind.
pub fn mfer_walk_samples_there(
    walk: &[u64; Walking::WORDS],
    channel: u32,
    count: &mut u64,
    place: &mut u64,
) -> u32
    ensures { outputs result place.new count.new ≡ count_out (walk_there walk.now channel) }
{
    outputs::count_out(tour::there(walk, channel), count, place)
}

// The bits of a channel's samples as mfer_samples tells them, of the frame that a walk stands behind. Nothing of the file is read but these samples.
pub fn mfer_walk_samples(
    file: &[u8],
    walk: &[u64; Walking::WORDS],
    channel: u32,
    first: u64,
    out: &mut [u64],
    count: &mut u64,
    place: &mut u64,
) -> u32
    ensures count_after { outputs result place.new count.new ≡ count_out (map_answer length (walk_read file.now walk.now channel first (length out.old))) }
    ensures out_after { out.new ≡ left_by (walk_read file.now walk.now channel first (length out.old)) out.old }
{
    outputs::count_out(tour::samples(file, walk, channel, first, out), count, place)
}

// The bits of all samples there of the frame that a walk stands behind: those of channel 0, then those of channel 1, at the front of `out`, as many as fit or are there.
// Nothing of the file is read but these samples.
pub fn mfer_walk_frame(
    file: &[u8],
    walk: &[u64; Walking::WORDS],
    out: &mut [u64],
    count: &mut u64,
    place: &mut u64,
) -> u32
    ensures count_after { outputs result place.new count.new ≡ count_out (map_answer length (sweep_in file.now walk.now (length out.old))) }
    ensures out_after { out.new ≡ left_by (sweep_in file.now walk.now (length out.old)) out.old }
{
    outputs::count_out(sweep::sweep(file, walk, out), count, place)
}

// Their values: the kinds and the whole numbers of a channel's samples as mfer_sample tells them, of the frame that a walk stands behind.
pub fn mfer_walk_values(
    file: &[u8],
    walk: &[u64; Walking::WORDS],
    channel: u32,
    first: u64,
    kinds: &mut [u8],
    wholes: &mut [i64],
    count: &mut u64,
    place: &mut u64,
) -> u32
    ensures count_after { outputs result place.new count.new ≡ count_out (map_answer length (walk_values file.now walk.now channel first (min (length kinds.old) (length wholes.old)))) }
    ensures kinds_after { kinds.new ≡ left_by (kinds_in (walk_values file.now walk.now channel first (min (length kinds.old) (length wholes.old)))) kinds.old }
    ensures wholes_after { wholes.new ≡ left_by (wholes_in (walk_values file.now walk.now channel first (min (length kinds.old) (length wholes.old)))) wholes.old }
{
    outputs::count_out(
        tour::values(file, walk, channel, first, kinds, wholes),
        count,
        place,
    )
}
