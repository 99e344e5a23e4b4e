// Many samples of one channel: their bits, or their values.
//
// For programs that draw or convert a channel: `there` answers how many of its samples are there, `samples` writes the bits of consecutive samples into a
// buffer that the caller lends, `values` their kinds and whole numbers into two, each after one pass over the file; `seen` and `values_seen` do so for a
// channel that was found before, with nothing else read.
// Promises, for any octets at all: the whole answer is a definition of specs/, refusals too, and so are the buffers afterwards.
// Read first: crate strides, then specs/Samples.antt.
#![tactic(auto)]

ghost use Rattle.std.specs.Prelude.{◌≡◌, ◌+◌, ◌-◌, ◌≤◌, min, length, take};
ghost use Rattle.std.proofs.lemmas.List.Edits.{sets};
ghost use Rattle.heads.specs.Answer.{map_answer, left_by, answer_of};
ghost use Rattle.view.specs.View.{there_seen, asked_seen};
ghost use Rattle.bulk.specs.Samples.{there_at, read_of, read_seen, values_of, values_seen, kinds_in, wholes_in, count_read};
ghost use Rattle.bulk.specs.Walked.{ToTell, kinds_told, wholes_told, kinds_seen, wholes_seen};

use heads::{Fault, Refusal};
use values::Meaning;
use view::View;

// How many samples of a channel are there.
pub fn there(s: &[u8], frame: u32, channel: u32) -> Result<usize, Refusal>
    ensures { answer_of result ≡ there_at s.now frame channel }
{
    let v = reader::look_up(s, frame, channel)?;
    let x = v.spread();
    Ok(x.there() as usize)
}

// How many samples of a channel that is seen are read from number `first` on, in a file of `size` octets: as many as there is room for or are there; 22,
// then 20.
fn readable(size: usize, v: View, first: u64, room: usize) -> Result<usize, Refusal>
    ensures { answer_of result ≡ asked_seen size v first (min room (there_seen v - first)) }
{
    let x = v.spread();
    if x.count() <= first {
        return Err(Refusal {
            fault: Fault::NoSample,
            place: 0,
        });
    }
    if x.lies(size) {
        return Ok(x.readable(first, room));
    }
    Err(Refusal {
        fault: Fault::NoFrame,
        place: 0,
    })
}

// The bits of the samples of a channel that is seen, from number `first` on, at the front of the buffer: as many as fit or are there.
pub fn seen(s: &[u8], v: View, first: u64, out: &mut [u64]) -> Result<usize, Refusal>
    ensures result_value { answer_of result ≡ map_answer length (read_seen s.now v first (length out.old)) }
    ensures out_after { out.new ≡ left_by (read_seen s.now v first (length out.old)) out.old }
{
    let n = readable(s.len(), v, first, out.len())?;
    strides::lay(s, v.spread(), first, n, out, 0);
    Ok(n)
}

// The same by frame and channel: one pass over the file finds the channel.
pub fn samples(
    s: &[u8],
    frame: u32,
    channel: u32,
    first: u64,
    out: &mut [u64],
) -> Result<usize, Refusal>
    ensures result_value { answer_of result ≡ count_read s.now frame channel first (length out.old) }
    ensures out_after { out.new ≡ left_by (read_of s.now frame channel first (length out.old)) out.old }
{
    let v = reader::look_up(s, frame, channel)?;
    seen(s, v, first, out)
}

// How many samples are told at a time.
const PIECE: usize = 256;

// The kinds and the whole numbers of n samples whose bits stand at the front of a slice, from `at` on in the buffers.
fn tell(bits: &[u64], n: usize, m: Meaning, kinds: &mut [u8], wholes: &mut [i64], at: usize)
    requires n_in_bounds { n ≤ length bits.now }
    requires n_in_bounds_2 { (at + n ≤ length kinds.old) × (at + n ≤ length wholes.old) }
    ensures kinds_after { kinds.new ≡ sets kinds.old at (kinds_told m (take n bits.now)) }
    ensures wholes_after { wholes.new ≡ sets wholes.old at (wholes_told m (take n bits.now)) }
{
    let mut i = 0usize;
    while i < n {
        let t = m.tell(bits[i]);
        kinds[at + i] = t.kind;
        let whole = t.whole;
        wholes[at + i] = whole;
        i += 1;
    }
}

// The kinds and the whole numbers of n samples of a channel that is seen, from number `first` on, piece by piece.
fn tell_samples(s: &[u8], v: View, first: u64, n: usize, kinds: &mut [u8], wholes: &mut [i64])
    requires { ToTell s.now v first n (length kinds.old) (length wholes.old) }
    ensures kinds_after { kinds.new ≡ sets kinds.old 0 (kinds_seen s.now v first n) }
    ensures wholes_after { wholes.new ≡ sets wholes.old 0 (wholes_seen s.now v first n) }
{
    let c = v.settings;
    let null = c.null;
    let m = Meaning::of_type(c.datatype, null);
    let mut bits = [0u64; PIECE];
    let mut done = 0usize;
    while done < n {
        let k = spread::smaller(PIECE, n - done);
        let _ = seen(s, v, first + done as u64, &mut bits);
        tell(&bits, k, m, kinds, wholes, done);
        done += k;
    }
}

// The values of the samples of a channel that is seen, from number `first` on: kinds and whole numbers at the fronts of the buffers, as many as
// fit in both or are there.
pub fn values_seen(
    s: &[u8],
    v: View,
    first: u64,
    kinds: &mut [u8],
    wholes: &mut [i64],
) -> Result<usize, Refusal>
    ensures result_value { answer_of result ≡ map_answer length (values_seen s.now v first (min (length kinds.old) (length wholes.old))) }
    ensures kinds_after { kinds.new ≡ left_by (kinds_in (values_seen s.now v first (min (length kinds.old) (length wholes.old)))) kinds.old }
    ensures wholes_after { wholes.new ≡ left_by (wholes_in (values_seen s.now v first (min (length kinds.old) (length wholes.old)))) wholes.old }
{
    let room = spread::smaller(kinds.len(), wholes.len());
    let n = readable(s.len(), v, first, room)?;
    tell_samples(s, v, first, n, kinds, wholes);
    Ok(n)
}

// The same by frame and channel.
pub fn values(
    s: &[u8],
    frame: u32,
    channel: u32,
    first: u64,
    kinds: &mut [u8],
    wholes: &mut [i64],
) -> Result<usize, Refusal>
    ensures result_value { answer_of result ≡ map_answer length (values_of s.now frame channel first (min (length kinds.old) (length wholes.old))) }
    ensures kinds_after { kinds.new ≡ left_by (kinds_in (values_of s.now frame channel first (min (length kinds.old) (length wholes.old)))) kinds.old }
    ensures wholes_after { wholes.new ≡ left_by (wholes_in (values_of s.now frame channel first (min (length kinds.old) (length wholes.old)))) wholes.old }
{
    let v = reader::look_up(s, frame, channel)?;
    values_seen(s, v, first, kinds, wholes)
}
