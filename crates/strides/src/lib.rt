// The bits of samples read into a buffer.
//
// For whoever knows where the samples of a channel lie: `lay` reads many of those that are there, and `lay_channels` all of them of all channels of a
// frame, with nothing else read.
// Promises, whatever numbers a spread holds: `lay` lays the bits of samples into a buffer where they are there, lie in the file and the buffer
// holds them, `lay_channels` as many as fit or are there; else they leave it as it is.
// Read first: crate spread, specs/Laying.antt and specs/Channels.antt, then `lay` and upwards. A change to a loop wants its speed measured again: each width
// has an instance of its own, with straight-line reads, because the compiler makes one wide load of them only so.
#![tactic(auto)]

ghost use Rattle.std.specs.Prelude.{◌≡◌, true, ◌⊎◌, ◌+◌, ◌*◌, ◌/◌, ◌≤◌, ◌<◌, min, length, take, leb};
ghost use Rattle.standing.specs.Standing.{octets_limit};
ghost use Rattle.std.proofs.lemmas.List.Edits.{sets};
ghost use Rattle.octets.specs.Pick.{pick, both};
ghost use Rattle.spread.specs.Spread.{bits_spread};
ghost use Rattle.strides.specs.Laying.{bits_from, lays_in};
ghost use Rattle.heads.specs.Answer.{map_answer, left_by, answer_of};
ghost use Rattle.strides.specs.Channels.{spread_at, spreads_from, all_lie, swept_bits, swept_of};
ghost use Rattle.strides.specs.Walked.{bits_here, four_laid, spaced, blocked, Wide, InFile, InBlocks, Even, Layable};

use heads::{Fault, Refusal};
use spread::{Sequences, Spread};
use standing::Standing;

// The bits of the sample of eight octets at a place. `octets::number` has a loop for them, which takes up to 1.5 times as long.
fn eight(s: &[u8], at: usize, little: bool) -> u64
    requires { at + 8 ≤ length s.now }
    ensures { result ≡ bits_here «little» 8 s.now at }
{
    let x = [
        s[at],
        s[at + 1],
        s[at + 2],
        s[at + 3],
        s[at + 4],
        s[at + 5],
        s[at + 6],
        s[at + 7],
    ];
    if little {
        return u64::from_le_bytes(x);
    }
    u64::from_be_bytes(x)
}

// The bits of the sample of W octets at a place.
fn bits_at<const W: usize>(s: &[u8], at: usize, little: bool) -> u64
    requires small { W ≤ 8 }
    requires in_bounds { at + W ≤ length s.now }
    ensures { result ≡ bits_here «little» W s.now at }
{
    if W == 8 {
        return eight(s, at, little);
    }
    octets::number(&s[at..at + W], little)
}

// The bits of n samples, each `step` octets after the one before it, from `at` on in the buffer.
fn run_of<const W: usize>(
    s: &[u8],
    from: usize,
    step: usize,
    n: usize,
    little: bool,
    out: &mut [u64],
    at: usize,
)
    requires small { W ≤ 8 }
    requires in_file { InFile (length s.now) from step n W }
    requires n_in_bounds { at + n ≤ length out.old }
    ensures { out.new ≡ sets out.old at (spaced «little» W s.now step from n) }
{
    let mut q = from;
    for k in 0..n {
        out[at + k] = bits_at::<W>(s, q, little);
        q += step;
    }
}

// Four samples.
fn four_of<const W: usize>(s: &[u8], q: usize, step: usize, little: bool, out: &mut [u64], p: usize)
    requires small { W ≤ 8 }
    requires step_in_bounds { q + 3 * step + W ≤ length s.now }
    requires p_in_bounds { p + 4 ≤ length out.old }
    ensures { out.new ≡ four_laid «little» W s.now step q out.old p }
{
    out[p] = bits_at::<W>(s, q, little);
    out[p + 1] = bits_at::<W>(s, q + step, little);
    out[p + 2] = bits_at::<W>(s, q + 2 * step, little);
    out[p + 3] = bits_at::<W>(s, q + 3 * step, little);
}

// The same as `run_of`, four samples a turn, and then those that are left. Tried for one octet and for eight, it gained nothing (docs/DECISIONS.md 76). WHOLE changes
// nothing: `lay_whole` has an instance of its own by it, since a loop that one function calls the compiler lays into that function (docs/DECISIONS.md 78).
fn fours_of<const W: usize, const WHOLE: bool>(
    s: &[u8],
    from: usize,
    step: usize,
    n: usize,
    little: bool,
    out: &mut [u64],
    at: usize,
)
    requires small { W ≤ 8 }
    requires in_file { InFile (length s.now) from step n W }
    requires n_in_bounds { at + n ≤ length out.old }
    ensures { out.new ≡ sets out.old at (spaced «little» W s.now step from n) }
{
    let turn = 4 * step;
    let turns = n / 4;
    let mut q = from;
    for k in 0..turns {
        four_of::<W>(s, q, step, little, out, at + k * 4);
        q += turn;
    }
    run_of::<W>(s, q, step, n % 4, little, out, at + turns * 4);
}

// The same for samples of any width. Where one lies right behind the other the compiler is told the step, and makes wide moves.
fn run(
    s: &[u8],
    from: usize,
    step: usize,
    n: usize,
    w: usize,
    little: bool,
    out: &mut [u64],
    at: usize,
)
    requires wide { Wide w }
    requires in_file { InFile (length s.now) from step n w }
    requires n_in_bounds { at + n ≤ length out.old }
    ensures { out.new ≡ sets out.old at (spaced «little» w s.now step from n) }
{
    match w {
        1 => run_of::<1>(s, from, step, n, little, out, at),
        2 if step == 2 => run_of::<2>(s, from, 2, n, little, out, at),
        2 => fours_of::<2, false>(s, from, step, n, little, out, at),
        4 if step == 4 => run_of::<4>(s, from, 4, n, little, out, at),
        4 => fours_of::<4, false>(s, from, step, n, little, out, at),
        _ => run_of::<8>(s, from, step, n, little, out, at),
    }
}

// The bits of n samples of blocks of b samples that lie g octets apart, from sample `first` of the block at `from` on, from `at` on in the buffer.
fn blocks(
    s: &[u8],
    from: usize,
    first: usize,
    b: usize,
    g: usize,
    w: usize,
    little: bool,
    out: &mut [u64],
    at: usize,
    n: usize,
)
    requires wide { Wide w }
    requires in_blocks { InBlocks (length s.now) from first b g w n }
    requires n_in_bounds { at + n ≤ length out.old }
    ensures { out.new ≡ sets out.old at (bits_from (blocked «little» w s.now from b g) first n) }
{
    let mut start = from;
    let mut r = first;
    let mut p = 0usize;
    while p < n {
        let m = spread::smaller(b - r, n - p);
        run(s, start + r * w, w, m, w, little, out, at + p);
        p += m;
        start += g;
        r = 0;
    }
}

// How far apart the samples of blocks are where they are evenly spaced, and 0 where they are not: one to a block, or blocks one behind the other.
fn even(b: u32, g: usize, w: usize) -> usize
    requires { Wide w }
    ensures { (result ≡ 0) ⊎ Even b g w result }
{
    if b == 1 {
        return g;
    }
    if b as usize * w == g {
        return w;
    }
    0
}

// The same, in one run where the samples are evenly spaced.
fn fill(
    s: &[u8],
    start: usize,
    r: usize,
    b: u32,
    g: usize,
    w: usize,
    little: bool,
    out: &mut [u64],
    at: usize,
    n: usize,
)
    requires wide { Wide w }
    requires in_blocks { InBlocks (length s.now) start r b g w n }
    requires n_in_bounds { at + n ≤ length out.old }
    ensures { out.new ≡ sets out.old at (bits_from (blocked «little» w s.now start b g) r n) }
{
    let step = even(b, g, w);
    if 0 < step {
        run(s, start + r * w, step, n, w, little, out, at);
    } else {
        blocks(s, start, r, b as usize, g, w, little, out, at, n);
    }
}

// The block of sample `first`.
fn block_of(first: u64, b: u64) -> u64
    requires { 0 < b }
    ensures { result ≡ first / b }
{
    if first < b {
        return 0;
    }
    first / b
}

// Whether n things from number `first` on are among `count`.
fn among(first: u64, n: usize, count: u64) -> bool
    ensures { result ≡ leb (first + n) count }
{
    if count < first {
        return false;
    }
    n as u64 <= count - first
}

// How far apart the blocks of a channel are, as far as samples are there: where a sequence is longer than a file may be, only the first one has any.
fn apart(octets: u64) -> usize
    ensures { result ≡ min octets octets_limit }
{
    if octets < Standing::OCTETS as u64 {
        return octets as usize;
    }
    Standing::OCTETS
}

// Whether n samples from number `first` on can be laid from `at` on in a buffer of `room` words.
fn lays(size: usize, room: usize, x: Spread, first: u64, n: usize, at: usize) -> bool
    ensures { result ≡ lays_in size room x first n at }
{
    if among(at as u64, n, room as u64) {
        if among(first, n, x.there()) {
            return x.lies(size);
        }
    }
    false
}

// They are laid there, from the block of the first one on.
fn lay_blocks(s: &[u8], x: Spread, first: u64, n: usize, out: &mut [u64], at: usize)
    requires n_nonzero { 0 < n }
    requires layable { Layable (length s.now) (length out.old) x first n at }
    ensures { out.new ≡ sets out.old at (bits_from (bits_spread s.now x) first n) }
{
    let b = x.block as u64;
    let block = block_of(first, b);
    let start = x.place + (block * x.octets + x.below) as usize;
    fill(
        s,
        start,
        (first - block * b) as usize,
        x.block,
        apart(x.octets),
        values::width(x.datatype),
        x.little,
        out,
        at,
        n,
    );
}

// The bits of n samples from number `first` on, from `at` on in the buffer; nothing where they do not all lie in the file, where not so many are there,
// or where the buffer does not hold them.
pub fn lay(s: &[u8], x: Spread, first: u64, n: usize, out: &mut [u64], at: usize)
    ensures { out.new ≡ pick (lays_in (length s.now) (length out.old) x first n at) (sets out.old at (bits_from (bits_spread s.now x) first n)) out.old }
{
    if lays(s.len(), out.len(), x, first, n, at) {
        if 0 < n {
            lay_blocks(s, x, first, n, out, at);
        }
    }
}

// Where the samples of a channel of a frame lie, by the words of the channels' records.
fn spread_at(t: &[u64], q: Sequences, channel: usize) -> Spread
    ensures { result ≡ spread_at t.now q channel }
{
    let c = words::held(t, channel);
    Spread {
        sequences: q.count,
        little: q.little,
        place: q.place,
        long: q.long,
        octets: q.octets,
        below: words::below(t, channel),
        block: c.block,
        datatype: c.datatype,
    }
}

// Whether the samples there of every channel lie in a file of `size` octets.
fn all_lie(size: usize, t: &[u64], q: Sequences, channels: u32) -> bool
    ensures { result ≡ all_lie size (spreads_from t.now q 0 channels) }
{
    for channel in 0..channels as usize {
        let x = spread_at(t, q, channel);
        if !x.lies(size) {
            return false;
        }
    }
    true
}

// The first n samples of a channel, from `at` on in the buffer. Samples of two octets, one to a block, have a loop here: frames of many channels have
// few sequences, and finding the loop for any samples costs as much as a turn of it.
fn lay_whole(s: &[u8], x: Spread, n: usize, out: &mut [u64], at: usize)
    requires { Layable (length s.now) (length out.old) x 0 n at }
    ensures { out.new ≡ sets out.old at (bits_from (bits_spread s.now x) 0 n) }
{
    if 0 < n {
        let start = x.place + x.below as usize;
        let g = apart(x.octets);
        if x.block == 1 {
            if values::width(x.datatype) == 2 {
                fours_of::<2, true>(s, start, g, n, x.little, out, at);
                return;
            }
        }
        fill(
            s,
            start,
            0,
            x.block,
            g,
            values::width(x.datatype),
            x.little,
            out,
            at,
            n,
        );
    }
}

// The samples there of channels that lie in the file, at the front of the buffer, as many as fit or are there; how many.
fn lay_all(s: &[u8], t: &[u64], q: Sequences, channels: u32, out: &mut [u64]) -> usize
    requires { all_lie (length s.now) (spreads_from t.now q 0 channels) ≡ true }
    ensures value { result ≡ length (take (length out.old) (swept_bits s.now (spreads_from t.now q 0 channels))) }
    ensures out_after { out.new ≡ sets out.old 0 (take (length out.old) (swept_bits s.now (spreads_from t.now q 0 channels))) }
{
    let mut at = 0;
    for channel in 0..channels as usize {
        let x = spread_at(t, q, channel);
        let n = x.readable(0, out.len() - at);
        lay_whole(s, x, n, out, at);
        at += n;
    }
    at
}

// The bits of the samples there of the first `channels` channels of a frame, those of one channel after those of another, at the front of the buffer: as many
// as fit or are there.
pub fn lay_channels(
    s: &[u8],
    t: &[u64],
    q: Sequences,
    channels: u32,
    out: &mut [u64],
) -> Result<usize, Refusal>
    ensures result_value { answer_of result ≡ map_answer length (swept_of s.now (length out.old) (spreads_from t.now q 0 channels)) }
    ensures out_after { out.new ≡ left_by (swept_of s.now (length out.old) (spreads_from t.now q 0 channels)) out.old }
{
    if all_lie(s.len(), t, q, channels) {
        return Ok(lay_all(s, t, q, channels, out));
    }
    Err(Refusal {
        fault: Fault::NoFrame,
        place: 0,
    })
}
