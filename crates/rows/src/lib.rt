// The samples of a waveform given out as rows, while its octets come.
//
// For the feed of a link: `lay` takes the octets of whole samples, many at once, and `put_sample` the sample that one octet more completes. A row is six words
// in a buffer that the caller lends: channel, number, place in the file, kind, whole number and bits.
// Promises, for any numbers, octets and words: `put_sample` stores the row of the sample that a link gives out for these octets; the octets that `lay` takes
// lead a link to the sample that comes next, the samples that they give out stand at the front of the buffer, and it stops only where the next one cannot be
// laid. The rest of the buffer stays as it is.
// Read first: crate link, then specs/Rows.antt.
#![tactic(auto)]

ghost use Rattle.std.specs.Prelude.{◌≡◌, false, [], ℕ, ◌+◌, ◌-◌, ◌*◌, ◌%◌, ◌^◌, ◌≤◌, ◌<◌, ltb, leb, eqb, length, take, drop};
ghost use Rattle.std.proofs.lemmas.List.Edits.{sets};
ghost use Rattle.octets.specs.Pick.{pick, both};
ghost use Rattle.octets.specs.Number.{range, twos, number_of};
ghost use Rattle.values.specs.Sample.{width_of, plain_of, value_of};
ghost use Rattle.words.specs.Words.{records_in};
ghost use Rattle.standing.specs.Standing.{octets_limit};
ghost use Rattle.link.specs.Link.{next_coming};
ghost use Rattle.rows.specs.Rows.{row_words, whole_word, row_of, coming_at, given_from, laid, lays_at, Lays};
ghost use Rattle.rows.specs.Laying.{showing, shown_as, given_at, Onward};

use standing::Standing;
use values::Bits;
use walk::Waveform;
use words::{Records, Sampling};

// The sizes of rows.
#[derive(Clone, Copy)]
pub struct Row {}

impl Row {
    // Words of a row.
    pub const WORDS: usize = 6;
}

// The sample that comes next: number `index` of the block of `channel` in `sequence`.
#[derive(Clone, Copy)]
pub struct Spot {
    pub sequence: u32,
    pub channel: u32,
    pub index: u32,
}

// The sample that comes next, and how many octets were taken and samples given out before it.
#[derive(Clone, Copy)]
pub struct Laid {
    pub at: Spot,
    pub taken: usize,
    pub given: usize,
}

// The two words that tell a value: its kind, and its whole number.
#[derive(Clone, Copy)]
struct Shown {
    kind: u64,
    whole: u64,
}

// The word of a signed number of bits below twice `half`: bits from `half` on stand for themselves less that range. No branch: signs are not foretold.
fn signed(bits: u64, half: u64) -> u64
    requires { (0 < half) × (half ≤ 2 ^ 31) × (bits < 2 * half) }
    ensures { (w : ℕ) → range w ≡ 2 * half → result ≡ whole_word (twos w bits) }
{
    bits + bits / half * (u64::MAX - (2 * half - 1))
}

// A whole number.
fn whole(word: u64) -> Shown
    ensures { result ≡ showing 0 word }
{
    Shown {
        kind: 0,
        whole: word,
    }
}

// A value of another kind.
fn other(kind: u64) -> Shown
    ensures { result ≡ showing kind 0 }
{
    Shown { kind, whole: 0 }
}

// A float of a kind, or no number where its bits are above infinity's without the sign.
fn float(kind: u64, infinity: u64, sign: u64, bits: u64) -> Shown
    requires { 0 < sign }
    ensures { result ≡ showing (pick (ltb infinity (bits % sign)) 4 kind) 0 }
{
    if infinity < bits % sign {
        return other(4);
    }
    other(kind)
}

// What some bits stand for, null aside.
fn plain(datatype: u8, bits: u64) -> Shown
    requires { bits < range (width_of datatype) }
    ensures { result ≡ shown_as (plain_of datatype bits) }
{
    match datatype {
        0 => whole(signed(bits, 0x8000)),
        2 => whole(signed(bits, 0x8000_0000)),
        4 => other(1),
        5 => whole(signed(bits, 0x80)),
        7 => float(2, 0x7F80_0000, 0x8000_0000, bits),
        8 => float(3, 0x7FF0_0000_0000_0000, 0x8000_0000_0000_0000, bits),
        _ => whole(bits),
    }
}

// What some bits stand for: null comes first.
fn told(datatype: u8, null: Bits, bits: u64) -> Shown
    requires { bits < range (width_of datatype) }
    ensures { result ≡ shown_as (value_of datatype null bits) }
{
    if null.width != 0 && null.bits == bits {
        return other(5);
    }
    plain(datatype, bits)
}

// The row of the sample of these bits, from p on.
fn put_row(c: Sampling, at: Spot, place: u64, bits: u64, out: &mut [u64], p: usize)
    requires bits_bound { bits < range (width_of c.datatype) }
    requires row_words_in_bounds { p + row_words ≤ length out.old }
    ensures { out.new ≡ sets out.old p (row_of (given_at c at place bits)) }
{
    let missing = c.null;
    let x = told(c.datatype, missing, bits);
    out[p] = u64::from(at.channel);
    out[p + 1] = u64::from(at.sequence) * u64::from(c.block) + u64::from(at.index);
    out[p + 2] = place;
    out[p + 3] = x.kind;
    out[p + 4] = x.whole;
    out[p + 5] = bits;
}

// The row of the sample that octets complete, at the front of the buffer; nothing where it has no room. `count` octets have come, these the last of them.
pub fn put_sample(t: &[u64], little: bool, at: Spot, octets: &[u8], count: u64, out: &mut [u64])
    ensures { out.new ≡ pick (leb row_words (length out.old)) (sets out.old 0 (row_of (given_from (records_in t.now) «little» count (coming_at at []) octets.now))) out.old }
{
    if out.len() < Row::WORDS {
        return;
    }
    let c = words::sampling_at(t, at.channel as usize);
    let x = octets::part(octets, 0, values::width(c.datatype));
    put_row(
        c,
        at,
        count.saturating_sub(octets.len() as u64),
        octets::number(x, little),
        out,
        0,
    );
}

// The number of the w octets from place i on.
fn bits_at(u: &[u8], i: usize, w: usize, little: bool) -> u64
    requires { (w ≤ 8) × (i + w ≤ length u.now) }
    ensures { (result ≡ number_of «little» (take w (drop i u.now))) × (result < range w) }
{
    let e = i + w;
    octets::number(&u[i..e], little)
}

// The number of the two octets from place i on.
fn two_at(u: &[u8], i: usize, little: bool) -> u64
    requires { i + 2 ≤ length u.now }
    ensures { (result ≡ number_of «little» (take 2 (drop i u.now))) × (result < range 2) }
{
    let a = u[i];
    let b = u[i + 1];
    if little {
        return octets::two_octets(b, a);
    }
    octets::two_octets(a, b)
}

// The sample behind one. Its ways join at the end, so that the compiler makes one loop of the loops below, and not one in another.
fn next(at: Spot, block: u32, channels: u32) -> Spot
    requires { at.sequence + 1 < 2 ^ 32 }
    ensures { coming_at result [] ≡ next_coming block channels (coming_at at []) }
{
    let mut sequence = at.sequence;
    let mut channel = at.channel;
    let mut index = 0u32;
    let behind = u64::from(at.index) + 1;
    if behind < u64::from(block) {
        index = behind as u32;
    } else {
        let beside = u64::from(at.channel) + 1;
        if beside < u64::from(channels) {
            channel = beside as u32;
        } else {
            channel = 0;
            sequence += 1;
        }
    }
    Spot {
        sequence,
        channel,
        index,
    }
}

// Whether a sample of w octets can be laid, of so many sequences, octets and words of room.
fn lays(at: Spot, sequences: u32, w: usize, octets: usize, room: usize) -> bool
    ensures { result ≡ both (ltb at.sequence sequences) (both (ltb 0 w) (both (leb w octets) (leb row_words room))) }
{
    at.sequence < sequences && 0 < w && w <= octets && Row::WORDS <= room
}

// The same of a sample of two octets with a sign whose channel has one of the records that are held.
fn lays_two(held: usize, datatype: u8, at: Spot, sequences: u32, octets: usize, room: usize) -> bool
    ensures { result ≡ both (ltb at.channel held) (both (eqb datatype 0) (both (ltb at.sequence sequences) (both (ltb 0 2) (both (leb 2 octets) (leb row_words room))))) }
{
    (at.channel as usize) < held && datatype == 0 && lays(at, sequences, 2, octets, room)
}

// Rows of whole samples, as far as they are of two octets with a sign, as most are, and their channels have records: a loop of its own, which asks for less.
fn lay_twos(t: &[u64], v: Waveform, at: Spot, count: u64, u: &[u8], out: &mut [u64]) -> Laid
    requires { count + length u.now ≤ octets_limit }
    ensures { Onward t.now v count u.now (laid at 0 0) out.old result out.new }
{
    let mut x = at;
    let mut i = 0usize;
    let mut n = 0usize;
    loop {
        let c = words::sampling_at(t, x.channel as usize);
        let p = Row::WORDS * n;
        if lays_two(
            t.len() / Records::WORDS,
            c.datatype,
            x,
            v.sequences,
            u.len() - i,
            out.len() - p,
        ) {
            let two = two_at(u, i, v.little);
            put_row(c, x, count + i as u64, two, out, p);
            i += 2;
            n += 1;
            x = next(x, c.block, v.channels);
        } else {
            return Laid {
                at: x,
                taken: i,
                given: n,
            };
        }
    }
}

// Rows of whole samples, from where others were laid on, as many as can be laid.
fn lay_on(t: &[u64], v: Waveform, from: Laid, count: u64, u: &[u8], out: &mut [u64]) -> Laid
    requires u_bound { count + length u.now ≤ octets_limit }
    requires taken_in_bounds { (from.taken ≤ length u.now) × (row_words * from.given ≤ length out.old) }
    ensures onward { Onward t.now v count u.now from out.old result out.new }
    ensures given_value { lays_at t.now v result.at (length u.now - result.taken) (length out.old - row_words * result.given) ≡ false }
{
    let mut x = from.at;
    let mut i = from.taken;
    let mut n = from.given;
    loop {
        let c = words::sampling_at(t, x.channel as usize);
        let w = values::width(c.datatype);
        let p = Row::WORDS * n;
        if lays(x, v.sequences, w, u.len() - i, out.len() - p) {
            let bits = bits_at(u, i, w, v.little);
            put_row(c, x, count + i as u64, bits, out, p);
            i += w;
            n += 1;
            x = next(x, c.block, v.channels);
        } else {
            return Laid {
                at: x,
                taken: i,
                given: n,
            };
        }
    }
}

// Rows of whole samples from the one at hand on, of which nothing has come, as many as there are octets and room for, at the front of the buffer. `count`
// octets have come before u.
pub fn lay(t: &[u64], v: Waveform, at: Spot, count: u64, u: &[u8], out: &mut [u64]) -> Laid
    ensures { Lays t.now v at count u.now out.old result out.new }
{
    let none = Laid {
        at,
        taken: 0,
        given: 0,
    };
    if Standing::OCTETS < u.len() {
        return none;
    }
    let most = (Standing::OCTETS - u.len()) as u64;
    if most < count {
        return none;
    }
    let twos = lay_twos(t, v, at, count, u, out);
    lay_on(t, v, twos, count, u, out)
}
