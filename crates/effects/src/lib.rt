// What an item asks for, and what stands after it.
//
// Promises, for any octets at all: `item_effect` answers what an item asks for where this stands before it, or its refusal (6 to 9);
// `standing_after` answers what stands after an effect. No record is changed here.
// Read first: specs/Effects.antt; what stands is in crate standing, and what a waveform gives in crate framing.
#![tactic(auto)]

ghost use Rattle.std.specs.Prelude.{◌≡◌};
ghost use Rattle.definitions.specs.Define.{tagged};
ghost use Rattle.effects.specs.Effects.{order_effect, count_effect, sequences_effect, start_effect, compressed_effect, root_effect, plain_effect, member_effect, group_effect, effect_of, standing_after};

use heads::Fault;
use items::Item;
use settings::{Change, Settings};
use standing::Standing;

// What an item asks for.
#[derive(Clone, Copy)]
pub enum Effect {
    // Nothing.
    Pass,
    // This byte order.
    Order(bool),
    // This channel count, 0 for none, and every channel back to the root settings.
    Count(u32),
    // This number of sequences, 0 for as many as the waveform holds.
    Sequences(u32),
    // This start pointer.
    Start(i64),
    // A definition for all channels.
    All(Change),
    // A definition for one channel.
    One(u32, Change),
    // A frame with this waveform.
    Frame { start: usize, len: usize },
}

// 01, byte order.
#[tactic(auto, unfolding(crate::specs::Effects::order_effect))]
fn order_effect(v: &[u8]) -> Result<Effect, Fault>
    ensures { result ≡ order_effect v.now }
{
    if 1 < v.len() {
        return Err(Fault::UnfitLength);
    }
    if v.len() == 0 {
        return Ok(Effect::Order(false));
    }
    let b = v[0];
    if 1 < b {
        return Err(Fault::UnfitValue);
    }
    Ok(Effect::Order(b == 1))
}

// 05, channels.
#[tactic(auto, unfolding(crate::specs::Effects::count_effect))]
fn count_effect(little: bool, v: &[u8]) -> Result<Effect, Fault>
    ensures { result ≡ count_effect «little» v.now }
{
    if 4 < v.len() {
        return Err(Fault::UnfitLength);
    }
    if v.len() == 0 {
        return Ok(Effect::Count(0));
    }
    let n = digits::four(v, little);
    if n == 0 {
        return Err(Fault::UnfitValue);
    }
    if Settings::CHANNELS < n as usize {
        return Err(Fault::UnfitValue);
    }
    Ok(Effect::Count(n))
}

// 06, sequences.
#[tactic(auto, unfolding(crate::specs::Effects::sequences_effect))]
fn sequences_effect(little: bool, v: &[u8]) -> Result<Effect, Fault>
    ensures { result ≡ sequences_effect «little» v.now }
{
    if 4 < v.len() {
        return Err(Fault::UnfitLength);
    }
    if v.len() == 0 {
        return Ok(Effect::Sequences(0));
    }
    let n = digits::four(v, little);
    if n == 0 {
        return Err(Fault::UnfitValue);
    }
    Ok(Effect::Sequences(n))
}

// 07, start pointer.
#[tactic(auto, unfolding(crate::specs::Effects::start_effect))]
fn start_effect(little: bool, continued: i64, v: &[u8]) -> Result<Effect, Fault>
    ensures { result ≡ start_effect «little» continued v.now }
{
    if 4 < v.len() {
        return Err(Fault::UnfitLength);
    }
    if v.len() == 0 {
        return Ok(Effect::Start(continued));
    }
    let z = digits::signed(v, little);
    Ok(Effect::Start(z as i64))
}

// 0E, compression.
#[tactic(auto, unfolding(crate::specs::Effects::compressed_effect))]
fn compressed_effect(v: &[u8]) -> Result<Effect, Fault>
    ensures { result ≡ compressed_effect v.now }
{
    if v.len() == 0 {
        Ok(Effect::Pass)
    } else {
        Err(Fault::Compressed)
    }
}

// The tags that stand only outside groups; every other one is stepped over.
#[tactic(auto, unfolding(crate::specs::Effects::root_effect))]
fn root_effect(st: Standing, tag: u8, start: usize, v: &[u8]) -> Result<Effect, Fault>
    ensures { result ≡ root_effect st tag start v.now }
{
    match tag {
        0x01 => order_effect(v),
        0x05 => count_effect(st.little, v),
        0x06 => sequences_effect(st.little, v),
        0x07 => start_effect(st.little, st.continued, v),
        0x0E => compressed_effect(v),
        0x1E => Ok(Effect::Frame {
            start,
            len: v.len(),
        }),
        _ => Ok(Effect::Pass),
    }
}

// An item outside a group.
#[tactic(auto, unfolding(crate::specs::Effects::plain_effect, crate::specs::Effects::all_effect))]
fn plain_effect(st: Standing, tag: u8, start: usize, v: &[u8]) -> Result<Effect, Fault>
    ensures { result ≡ plain_effect st tag start v.now (tagged tag) }
{
    match definitions::attribute_of(tag) {
        Some(a) => {
            let base = Settings::default();
            let change = definitions::define(a, v, st.little, base)?;
            Ok(Effect::All(change))
        }
        None => root_effect(st, tag, start, v),
    }
}

// An item inside a group that is not ignored.
#[tactic(auto, unfolding(crate::specs::Effects::member_effect, crate::specs::Effects::one_effect))]
fn member_effect(st: Standing, channel: u32, tag: u8, v: &[u8]) -> Result<Effect, Fault>
    ensures { result ≡ member_effect st channel v.now (tagged tag) }
{
    match definitions::attribute_of(tag) {
        Some(a) => {
            let base = st.root;
            let change = definitions::define(a, v, st.little, base)?;
            Ok(Effect::One(channel, change))
        }
        None => Ok(Effect::Pass),
    }
}

// A group's channel number.
#[tactic(auto, unfolding(crate::specs::Effects::group_effect))]
fn group_effect(st: Standing, channel: u32) -> Result<Effect, Fault>
    ensures { result ≡ group_effect st channel }
{
    if st.counted == 0 {
        return Ok(Effect::Pass);
    }
    if channel < st.counted {
        return Ok(Effect::Pass);
    }
    Err(Fault::ChannelNumber)
}

// What an item of the file s asks for.
#[tactic(auto, unfolding(crate::specs::Effects::effect_of))]
pub fn item_effect(s: &[u8], st: Standing, item: Item) -> Result<Effect, Fault>
    ensures { result ≡ effect_of s.now st item }
{
    match item {
        Item::Plain {
            place: _,
            tag,
            start,
            len,
        } => plain_effect(st, tag, start, octets::part(s, start, len)),
        Item::Group { place: _, channel } => group_effect(st, channel),
        Item::Member {
            place: _,
            channel,
            tag,
            start,
            len,
        } => {
            if st.counted == 0 {
                return Ok(Effect::Pass);
            }
            member_effect(st, channel, tag, octets::part(s, start, len))
        }
        Item::Mark { place: _ } => Ok(Effect::Pass),
    }
}

// What stands after an effect that gives no frame.
pub fn standing_after(st: Standing, e: Effect) -> Standing
    ensures { result ≡ standing_after st (Ok e) }
{
    let mut x = st;
    match e {
        Effect::Order(little) => {
            x.little = little;
        }
        Effect::Count(counted) => {
            x.counted = counted;
        }
        Effect::Sequences(sequences) => {
            x.sequences = sequences;
        }
        Effect::Start(start) => {
            x.start = start;
        }
        Effect::All(change) => {
            let root = settings::apply(st.root, change);
            x.root = root;
        }
        _ => {}
    }
    x
}
