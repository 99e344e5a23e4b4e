// Samples of a channel of the frame that a walk stands behind: their bits, or their values.
//
// For programs that walk over a file and draw or convert one channel of each frame: `there` answers how many of its samples are there, `samples` writes the
// bits of consecutive samples into a buffer that the caller lends, `values` their kinds and whole numbers into two, with nothing of the file read but these
// samples.
// Promises, for any words and any octets: the whole answer is a definition of specs/, refusals too, and so are the buffers afterwards.
// Read first: crates walking and bulk, then specs/Tour.antt.
#![tactic(auto)]

ghost use Rattle.std.specs.Prelude.{◌≡◌, min, length};
ghost use Rattle.heads.specs.Answer.{map_answer, left_by, answer_of};
ghost use Rattle.bulk.specs.Samples.{kinds_in, wholes_in};
ghost use Rattle.tour.specs.Tour.{walk_there, walk_read, walk_values};

use heads::Refusal;

// How many samples of a channel of the frame that the last step told of are there.
pub fn there(w: &[u64], channel: u32) -> Result<usize, Refusal>
    ensures { answer_of result ≡ walk_there w.now channel }
{
    let v = walking::view_at(w, channel)?;
    let x = v.spread();
    Ok(x.there() as usize)
}

// The bits of the samples of a channel of that frame, from number `first` on, at the front of the buffer: as many as fit or are there.
pub fn samples(
    s: &[u8],
    w: &[u64],
    channel: u32,
    first: u64,
    out: &mut [u64],
) -> Result<usize, Refusal>
    ensures result_value { answer_of result ≡ map_answer length (walk_read s.now w.now channel first (length out.old)) }
    ensures out_after { out.new ≡ left_by (walk_read s.now w.now channel first (length out.old)) out.old }
{
    let v = walking::view_at(w, channel)?;
    bulk::seen(s, v, first, out)
}

// Their values: kinds and whole numbers at the fronts of the buffers, as many as fit in both or are there.
pub fn values(
    s: &[u8],
    w: &[u64],
    channel: u32,
    first: u64,
    kinds: &mut [u8],
    wholes: &mut [i64],
) -> Result<usize, Refusal>
    ensures result_value { answer_of result ≡ map_answer length (walk_values s.now w.now channel first (min (length kinds.old) (length wholes.old))) }
    ensures kinds_after { kinds.new ≡ left_by (kinds_in (walk_values s.now w.now channel first (min (length kinds.old) (length wholes.old)))) kinds.old }
    ensures wholes_after { wholes.new ≡ left_by (wholes_in (walk_values s.now w.now channel first (min (length kinds.old) (length wholes.old)))) wholes.old }
{
    let v = walking::view_at(w, channel)?;
    bulk::values_seen(s, v, first, kinds, wholes)
}
