// One pass over a file: every file settled.
//
// Promises, for any octets at all: `scan_file` walks the file once and answers the number of frames or the refusal of document 01 with its
// number and place, what it kept of the frame and channel that are asked for, and how many octets the canonical file's frames take.
// Up to the first definition in a group it needs no channel records (`scan_root`), from there on it keeps them as they stood at a time (`scan_channels`). Both take
// definitions in stretches where they can, and every other item by what crate effects says of it.
// Read first: crate verdict (the file), specs/Scan.antt (what a pass answers), then specs/Passing.antt (what it knows on its way).
#![tactic(auto)]

ghost use Rattle.std.specs.Prelude.{◌≡◌, ◌+◌, ◌*◌, ◌-◌, ◌^◌, ◌≤◌, ◌<◌, min, length, take, replicate};
ghost use Rattle.octets.specs.Pick.{pick};
ghost use Rattle.items.specs.Walk.{cursor, refusal};
ghost use Rattle.settings.specs.Settings.{default_settings, channel_limit};
ghost use Rattle.stretch.specs.Stretch.{stretch_of};
ghost use Rattle.sizes.specs.Size.{frame_size};
ghost use Rattle.layout.specs.Frame.{sequence_octets};
ghost use Rattle.layout.specs.Measure.{layout_of};
ghost use Rattle.there.specs.There.{there_octets};
ghost use Rattle.dated.specs.Dated.{settled_in};
ghost use Rattle.standing.specs.Standing.{octets_limit};
ghost use Rattle.framing.specs.Framing.{channels_of};
ghost use Rattle.verdict.specs.Verdict.{place_at};
ghost use Rattle.pass.specs.Scan.{refused_scan, scan_of};
ghost use Rattle.pass.specs.Passing.{Scanning, Room, opened_by, begins_at, none_met, met_scan, met_with, view_met};

use dated::{Dated, Dates};
use effects::Effect;
use heads::{Fault, Refusal};
use items::{Cursor, Item, Within};
use layout::Layout;
use settings::Settings;
use standing::Standing;
use stretch::Stretch;
use view::View;

// The frame and the channel that a question names.
#[derive(Clone, Copy)]
pub struct Asked {
    pub frame: u32,
    pub channel: u32,
}

// What one pass over a file answers; `size` is how many octets its frames take in the canonical file.
#[derive(Clone, Copy)]
pub struct Scan {
    pub checked: Result<u32, Refusal>,
    pub found: Option<View>,
    pub size: u64,
}

fn refused_scan(x: Refusal) -> Scan
    ensures { result ≡ refused_scan x }
{
    Scan {
        checked: Err(x),
        found: None,
        size: 0,
    }
}

// A refused item decides at its place.
fn refused_item(fault: Fault, item: Item) -> Scan
    ensures { result ≡ refused_scan (refusal fault (place_at item)) }
{
    refused_scan(Refusal {
        fault,
        place: verdict::place_of(item),
    })
}

// The settings of a channel that the frame has, else the defaults.
fn seen(there: bool, s: Settings) -> Settings
    ensures { result ≡ pick there s default_settings }
{
    if there { s } else { Settings::default() }
}

// What is kept of the frame that is asked for.
fn view_of(
    channel: u32,
    st: Standing,
    sequences: u32,
    start: usize,
    len: usize,
    l: Layout,
    c: Settings,
) -> View
    ensures { result ≡ view_met channel st sequences start len l c }
{
    let channels = framing::channels_of(st.counted);
    View {
        start: st.start,
        channels,
        sequences,
        little: st.little,
        place: start,
        long: len,
        octets: l.octets,
        below: l.below,
        settings: seen(channel < channels, c),
    }
}

// What a pass keeps of the frames that it has met: how many, the one that is asked for, and how many octets they take in the canonical file.
#[derive(Clone, Copy)]
struct Met {
    frames: u32,
    found: Option<View>,
    size: u64,
}

impl Met {
    fn none() -> Met
        ensures { result ≡ none_met }
    {
        Met {
            frames: 0,
            found: None,
            size: 0,
        }
    }

    // The answer at the end of the file.
    fn scan(self) -> Scan
        ensures { result ≡ met_scan self }
    {
        let found = self.found;
        Scan {
            checked: Ok(self.frames),
            found,
            size: self.size,
        }
    }

    // One frame more, whose samples there take `there` octets; `c` are the settings of the channel that is asked for, where the frame has it.
    fn with_frame(
        self,
        asked: Asked,
        st: Standing,
        sequences: u32,
        start: usize,
        len: usize,
        l: Layout,
        there: u64,
        c: Settings,
    ) -> Met
        requires { Room l there self }
        ensures { (result ≡ met_with asked st sequences start len l there c self) × (frame_size sequences l.groups there < 2 ^ 32) }
    {
        let size = self.size + sizes::frame_size(sequences, l.groups as u32, there as u32);
        let frames = self.frames + 1;
        if self.frames == asked.frame {
            return Met {
                frames,
                found: Some(view_of(asked.channel, st, sequences, start, len, l, c)),
                size,
            };
        }
        let found = self.found;
        Met {
            frames,
            found,
            size,
        }
    }
}

// The last record for every channel number above it.
fn index(channel: u32) -> usize
    ensures { result ≡ min channel (channel_limit - 1) }
{
    let last = Settings::CHANNELS - 1;
    let k = channel as usize;
    if k < last { k } else { last }
}

// The channel of a group that takes effect here; for every other item the number of records, which is no channel.
fn opened(item: Item, counted: u32) -> usize
    ensures { result ≡ opened_by counted item }
{
    match item {
        Item::Plain {
            place: _,
            tag: _,
            start: _,
            len: _,
        } => Settings::CHANNELS,
        Item::Group { place: _, channel } => {
            if channel < counted {
                channel as usize
            } else {
                Settings::CHANNELS
            }
        }
        Item::Member {
            place: _,
            channel: _,
            tag: _,
            start: _,
            len: _,
        } => Settings::CHANNELS,
        Item::Mark { place: _ } => Settings::CHANNELS,
    }
}

// A stretch of root definitions may begin at a cursor.
fn begins(s: &[u8], c: Cursor) -> bool
    ensures { result ≡ begins_at s.now c }
{
    let at = c.at;
    let within = c.within;
    match within {
        Within::Root => {
            if at < s.len() {
                stretch::stepped_over(s[at])
            } else {
                false
            }
        }
        Within::Definite { channel: _, end: _ } => false,
        Within::Open {
            channel: _,
            place: _,
        } => false,
    }
}

// A cursor moved on, in the same group or outside.
fn moved(c: Cursor, at: usize) -> Cursor
    ensures { result ≡ cursor at c.within }
{
    let within = c.within;
    Cursor { at, within }
}

// The stretch of root definitions at a cursor.
fn root_stretch(s: &[u8], c: Cursor, st: Standing) -> Stretch
    ensures { result ≡ stretch_of s.now c st.little default_settings st.root }
{
    stretch::along(s, c, st.little, Settings::default(), st.root)
}

// The layout of a frame whose channels all hold the root settings.
fn root_layout(st: Standing, channel: u32) -> Layout
    requires { st.counted ≤ channel_limit }
    ensures { result ≡ layout_of channel (take (channels_of st.counted) (replicate channel_limit st.root)) }
{
    let n = framing::channels_of(st.counted) as usize;
    let root = st.root;
    let mut l = Layout::none();
    let mut i = 0usize;
    while i < n {
        l = l.more(i, channel, root);
        i += 1;
    }
    l
}

// The octets of the samples there, of a frame whose channels all hold the root settings. In a waveform that ends before its sequences do only the octets of the
// sample that is cut off are no sample's.
fn root_there(st: Standing, sequences: u32, octets: u64, len: usize) -> u64
    requires { octets ≡ sequence_octets (take (channels_of st.counted) (replicate channel_limit st.root)) }
    ensures { result ≡ there_octets (take (channels_of st.counted) (replicate channel_limit st.root)) sequences len }
{
    if sizes::holds(len as u64, sequences, octets) {
        return sequences as u64 * octets;
    }
    let w = values::width(st.root.datatype) as u64;
    len as u64 - len as u64 % w
}

// The same of a frame whose n channels hold what records say, and whose waveform ends before its sequences do: the channel is looked for whose block is cut off.
// The table comes in as a copy, so only such a frame asks.
fn channels_there(
    root: Settings,
    dates: Dates,
    table: [Dated; Settings::CHANNELS],
    n: usize,
    sequences: u32,
    octets: u64,
    len: usize,
) -> u64
    requires n_le_channel_limit { (n ≤ channel_limit) × (octets ≡ sequence_octets (take n (settled_in root dates table))) }
    requires len_bound { len < sequences * octets }
    ensures { result ≡ there_octets (take n (settled_in root dates table)) sequences len }
{
    let mut left = len as u64 % octets;
    let mut i = 0usize;
    while i < n {
        let c = dated::settle(root, dates, table[i]);
        let w = values::width(c.datatype) as u64;
        let block = c.block as u64 * w;
        if left < block {
            return len as u64 - left % w;
        }
        left -= block;
        i += 1;
    }
    len as u64 - left
}

// The pass from the first definition in a group on, where all channels hold the root settings.
fn scan_channels(s: &[u8], asked: Asked, from: Cursor, standing: Standing, before: Met) -> Scan
    requires { Scanning s.now asked (replicate channel_limit standing.root) from standing before }
    ensures { result ≡ scan_of asked s.now }
{
    let mut table = Dated::table();
    let mut dates = Dates::first();
    let mut c = from;
    let mut st = standing;
    let mut met = before;
    loop {
        match items::next_item(s, c) {
            Ok(None) => {
                return met.scan();
            }
            Err(x) => {
                return refused_scan(x);
            }
            Ok(Some((item, next))) => {
                c = next.renewed();
                let root = st.root;
                // The definitions at the front of a group are taken as a stretch.
                let k = opened(item, st.counted);
                if k < Settings::CHANNELS {
                    let stood = dated::settle(root, dates, table[k]);
                    let ahead = stretch::along(s, c, st.little, root, stood);
                    let settled = ahead.settings;
                    table[k] = dates.note(settled);
                    c = moved(c, ahead.at);
                    continue;
                }
                match effects::item_effect(s, st, item) {
                    Err(fault) => {
                        return refused_item(fault, item);
                    }
                    Ok(effect) => match effect {
                        Effect::Count(_) => {
                            dates = dates.cleared();
                            st = effects::standing_after(st, effect);
                        }
                        Effect::All(change) => {
                            dates = dates.defined(change);
                            st = effects::standing_after(st, effect);
                        }
                        Effect::One(channel, change) => {
                            let k = channel as usize;
                            if k < Settings::CHANNELS {
                                let stood = dated::settle(root, dates, table[k]);
                                table[k] = dates.note(settings::apply(stood, change));
                            }
                        }
                        Effect::Frame { start, len } => {
                            let n = framing::channels_of(st.counted) as usize;
                            let mut l = Layout::none();
                            let mut i = 0usize;
                            while i < n {
                                l = l.more(i, asked.channel, dated::settle(root, dates, table[i]));
                                i += 1;
                            }
                            match framing::frame_of(met.frames, st, l.agree, l.octets, len) {
                                Err(fault) => {
                                    return refused_item(fault, item);
                                }
                                Ok((sequences, after)) => {
                                    let k = index(asked.channel);
                                    let seen = dated::settle(root, dates, table[k]);
                                    let mut there = 0u64;
                                    if sizes::holds(len as u64, sequences, l.octets) {
                                        there = sequences as u64 * l.octets;
                                    } else {
                                        there = channels_there(
                                            root, dates, table, n, sequences, l.octets, len,
                                        );
                                    }
                                    met = met.with_frame(
                                        asked, st, sequences, start, len, l, there, seen,
                                    );
                                    st = after;
                                }
                            }
                        }
                        _ => {
                            st = effects::standing_after(st, effect);
                        }
                    },
                }
            }
        }
    }
}

// The pass up to the first definition in a group: all channels hold the root settings, and no record is needed.
fn scan_root(s: &[u8], asked: Asked) -> Scan
    requires { length s.now ≤ octets_limit }
    ensures { result ≡ scan_of asked s.now }
{
    let mut c = Cursor::first();
    let mut st = Standing::first();
    let mut met = Met::none();
    loop {
        if begins(s, c) {
            let ahead = root_stretch(s, c, st);
            if c.at < ahead.at {
                let settled = ahead.settings;
                st = st.with_root(settled);
                c = moved(c, ahead.at);
                continue;
            }
        }
        match items::next_item(s, c) {
            Ok(None) => {
                return met.scan();
            }
            Err(x) => {
                return refused_scan(x);
            }
            Ok(Some((item, next))) => {
                match effects::item_effect(s, st, item) {
                    Err(fault) => {
                        return refused_item(fault, item);
                    }
                    Ok(effect) => match effect {
                        // An arm of its own, so that the last one need not keep up the root settings.
                        Effect::All(_) => {
                            st = effects::standing_after(st, effect);
                            c = next.renewed();
                        }
                        Effect::One(_, _) => {
                            return scan_channels(s, asked, c, st, met);
                        }
                        Effect::Frame { start, len } => {
                            let l = root_layout(st, asked.channel);
                            match framing::frame_of(met.frames, st, l.agree, l.octets, len) {
                                Err(fault) => {
                                    return refused_item(fault, item);
                                }
                                Ok((sequences, after)) => {
                                    let there = root_there(st, sequences, l.octets, len);
                                    met = met.with_frame(
                                        asked, st, sequences, start, len, l, there, st.root,
                                    );
                                    st = after;
                                    c = next.renewed();
                                }
                            }
                        }
                        _ => {
                            st = effects::standing_after(st, effect);
                            c = next.renewed();
                        }
                    },
                }
            }
        }
    }
}

// One pass over a file: its frames counted or its refusal, the frame and channel that are asked for, and the canonical size.
pub fn scan_file(s: &[u8], asked: Asked) -> Scan
    ensures { result ≡ scan_of asked s.now }
{
    if Standing::OCTETS < s.len() {
        return refused_scan(Refusal {
            fault: Fault::LongFile,
            place: 0,
        });
    }
    scan_root(s, asked)
}
