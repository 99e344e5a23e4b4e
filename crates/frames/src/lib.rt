// A frame of the canonical file: head, groups, 1E and the samples.
//
// Promises: `put_frame` stores a frame, with the samples of its waveform that are there, from the place `at` on and returns the place after it; where it does
// not fit, or where these samples are more octets than a file may have, nothing is stored and `at` is returned. `open_waveform` does so with the octets ahead
// of a frame's samples, for whoever has samples to store as they stand. `Putting` of crate stores says this once.
// Read first: specs/Parts.antt (the octets; a frame's head and groups are in crate groups).
// The size is known before the first octet is stored. What is private here stores what fits: `Put` says which octets, from where on.
#![tactic(auto)]

ghost use Rattle.std.specs.Prelude.{◌≡◌, map, ◌+◌, ◌%◌, ◌≤◌, ◌<◌, min, length, take, drop};
ghost use Rattle.stores.specs.Storing.{Put, Putting};
ghost use Rattle.layout.specs.Frame.{sequence_octets, samples_octets, reported};
ghost use Rattle.sizes.specs.Size.{frame_size};
ghost use Rattle.layout.specs.Measure.{groups_size};
ghost use Rattle.laid.specs.Turned.{Even, turned_all};
ghost use Rattle.there.specs.There.{part_octets, partial_octets, there_octets};
ghost use Rattle.there.specs.Turned.{turned_part, turned_there};
ghost use Rattle.groups.specs.Group.{groups_octets};
ghost use Rattle.frames.specs.Channels.{settings_of};
ghost use Rattle.frames.specs.Parts.{samples_turned, waveform_head, frame_parts, frame_given};
ghost use Rattle.settings.specs.Settings.{channel_limit};
ghost use Rattle.words.specs.Words.{held_in};
ghost use Rattle.standing.specs.Standing.{octets_limit};

use channels::Channels;
use standing::Standing;

mod channels;

// The groups of the first `count` channels.
fn put_groups(out: &mut [u8], at: usize, channels: Channels) -> usize
    requires { at + groups_size 0 (settings_of channels) ≤ length out.old }
    ensures { Put out.old at (groups_octets 0 (map reported (settings_of channels.entry))) result out.new }
{
    let mut next = at;
    for i in 0..channels.count {
        next = groups::put_group(out, next, i as u8, channels.settings(i));
    }
    next
}

// The width of all channels where it is one, else 0.
fn even_width(channels: Channels) -> usize
    ensures { 0 < result → Even result (settings_of channels.entry) }
{
    let first = channels.settings(0);
    let v = values::width(first.datatype);
    for i in 0..channels.count {
        let c = channels.settings(i);
        if values::width(c.datatype) != v {
            return 0;
        }
    }
    v
}

// The samples of so many sequences of a waveform, each turned round, block by block.
fn put_blocks(w: &[u8], sequences: usize, channels: Channels, out: &mut [u8], at: usize) -> usize
    requires inside { samples_octets (settings_of channels) sequences ≤ length w.now }
    requires sequences_in_bounds { at + samples_octets (settings_of channels) sequences ≤ length out.old }
    ensures { Put out.old at (turned_all (settings_of channels.entry) sequences w.now) result out.new }
{
    let mut place = 0;
    let mut next = at;
    for _sequence in 0..sequences {
        for i in 0..channels.count {
            let c = channels.settings(i);
            let v = values::width(c.datatype);
            next = runs::turn(w, place, c.block as usize, v, out, next);
            place += c.block as usize * v;
        }
    }
    next
}

// The samples in the first `rest` octets of the sequence that stands at `from`, each turned round.
fn put_part(
    w: &[u8],
    from: usize,
    rest: usize,
    channels: Channels,
    out: &mut [u8],
    at: usize,
) -> usize
    requires inside { from + rest ≤ length w.now }
    requires rest_in_bounds { at + part_octets (settings_of channels) rest ≤ length out.old }
    ensures { Put out.old at (turned_part (settings_of channels.entry) rest (drop from w.now)) result out.new }
{
    let mut place = from;
    let mut left = rest;
    let mut next = at;
    for i in 0..channels.count {
        let c = channels.settings(i);
        let v = values::width(c.datatype);
        let block = c.block as usize * v;
        if left < block {
            return runs::turn(w, place, left / v, v, out, next);
        }
        next = runs::turn(w, place, c.block as usize, v, out, next);
        place += block;
        left -= block;
    }
    next
}

// The samples of whole sequences and of one that is cut off, each turned round, block by block.
fn put_mixed(
    w: &[u8],
    octets: usize,
    sequence: usize,
    channels: Channels,
    out: &mut [u8],
    at: usize,
) -> usize
    requires whole { sequence ≡ sequence_octets (settings_of channels) }
    requires octets_in_bounds { (octets ≤ length w.now) × (part_octets (settings_of channels) (octets % sequence) ≡ octets % sequence) × (at + octets ≤ length out.old) }
    ensures { Put out.old at (turned_there (settings_of channels.entry) octets w.now) result out.new }
{
    if sequence == 0 {
        return at;
    }
    let whole = octets / sequence;
    let next = put_blocks(w, whole, channels, out, at);
    put_part(w, whole * sequence, octets % sequence, channels, out, next)
}

// The samples in the first octets of a waveform, which end with a sample, big-endian: as they stand where their order is big or no sample has two octets,
// turned round in one run where all have one width, else block by block.
fn put_samples(
    w: &[u8],
    little: bool,
    octets: usize,
    sequence: usize,
    channels: Channels,
    out: &mut [u8],
    at: usize,
) -> usize
    requires whole { sequence ≡ sequence_octets (settings_of channels) }
    requires octets_in_bounds { (octets ≤ length w.now) × (part_octets (settings_of channels) (octets % sequence) ≡ octets % sequence) × (at + octets ≤ length out.old) }
    ensures { Put out.old at (samples_turned «little» (settings_of channels.entry) octets w.now) result out.new }
{
    if !little {
        return runs::copy(w, 0, octets, out, at);
    }
    let v = even_width(channels);
    if v == 1 {
        return runs::copy(w, 0, octets, out, at);
    }
    if v == 0 {
        return put_mixed(w, octets, sequence, channels, out, at);
    }
    runs::turn(w, 0, octets / v, v, out, at)
}

// Stores 1E and its length, ahead of so many octets of samples.
pub fn open_waveform(out: &mut [u8], at: usize, octets: u32) -> usize
    ensures { Putting out.old at (waveform_head octets) result out.new }
{
    if stores::overruns(out.len(), at, 1 + stores::length_octets(octets)) {
        return at;
    }
    let a = stores::put_octet(out, at, 0x1E);
    stores::put_length(out, a, octets)
}

// A frame: 05, 06, 07, the groups, 1E and the samples.
fn store_frame(
    w: &[u8],
    start: i32,
    little: bool,
    sequences: u32,
    octets: usize,
    sequence: usize,
    channels: Channels,
    out: &mut [u8],
    at: usize,
) -> usize
    requires whole { sequence ≡ sequence_octets (settings_of channels) }
    requires octets_value { (octets ≡ there_octets (settings_of channels) sequences (length w.now)) × (octets ≤ octets_limit) }
    requires octets_in_bounds { at + frame_size sequences (groups_size 0 (settings_of channels)) octets ≤ length out.old }
    ensures { Put out.old at (frame_parts start sequences (settings_of channels.entry) (samples_turned «little» (settings_of channels.entry) octets w.now)) result out.new }
{
    let a = groups::put_head(out, at, channels.count as u32, sequences, start);
    let b = put_groups(out, a, channels);
    let c = open_waveform(out, b, octets as u32);
    put_samples(w, little, octets, sequence, channels, out, c)
}

// The octets of a sample that is cut off, of the first `rest` octets of a sequence.
fn partial_octets(channels: Channels, rest: usize) -> usize
    ensures { result ≡ partial_octets (settings_of channels.entry) rest }
{
    let mut left = rest;
    for i in 0..channels.count {
        let c = channels.settings(i);
        let v = values::width(c.datatype);
        let block = c.block as usize * v;
        if left < block {
            return left % v;
        }
        left -= block;
    }
    left
}

// The octets of the samples there, of a waveform of `long` octets.
fn there_octets(channels: Channels, sequences: u32, sequence: u64, long: usize) -> usize
    requires { sequence ≡ sequence_octets (settings_of channels) }
    ensures { result ≡ there_octets (settings_of channels.entry) sequences long }
{
    if sizes::holds(long as u64, sequences, sequence) {
        return sequences as usize * sequence as usize;
    }
    long - partial_octets(channels, long % sequence as usize)
}

// Stores the frame of a waveform, whose channels' settings are what the first `count` records that words hold say.
pub fn put_frame(
    w: &[u8],
    start: i32,
    little: bool,
    sequences: u32,
    t: &[u64],
    count: usize,
    out: &mut [u8],
    at: usize,
) -> usize
    ensures { Putting out.old at (frame_given start «little» sequences (take (min count channel_limit) (held_in t.now)) w.now) result out.new }
{
    let channels = Channels {
        words: t,
        count: records::at_most(t, count),
    };
    let l = records::layout_in(t, count);
    let octets = there_octets(channels, sequences, l.octets, w.len());
    if Standing::OCTETS < octets {
        return at;
    }
    let size = sizes::frame_size(sequences, l.groups as u32, octets as u32);
    if stores::overruns(out.len(), at, size as usize) {
        return at;
    }
    store_frame(
        w,
        start,
        little,
        sequences,
        octets,
        l.octets as usize,
        channels,
        out,
        at,
    )
}
