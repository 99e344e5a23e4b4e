// One record in words: a channel's record read from, and stored in, words that a caller lends.
//
// A record takes `Records::WORDS` words, one number a word and one for the octets of a sequence below its channel; words hold as many records as
// there is room for. A number is that of the lowest octets of its word, so that any words at all are records.
// Promises, for any words and any number of a record: `get` answers a record, `held` its settings, `sampling_at` those that its samples need and `below` the
// octets below its channel, and `put` stores one. Where there is no such record the four answer zeros and `put` stores nothing. Words of no record's
// numbers stay as they are.
// `words_of` answers the words of a record's numbers and `signed_word` that of a signed number, for others that keep numbers so.
// Read first: specs/Words.antt.
#![tactic(auto)]

ghost use Rattle.std.specs.Prelude.{◌≡◌, ◌+◌, ◌<◌, ◌≤◌, length, get_or, set};
ghost use Rattle.octets.specs.Number.{low_of, twos};
ghost use Rattle.dated.specs.Dated.{zero_dated};
ghost use Rattle.words.specs.Words.{record_numbers, scale_by, bits_by, record_by, words_at, records_in, below_in, sampling_of, Holding, Overlaid};

use dated::Dated;
use settings::{Scale, Settings};
use values::Bits;

// The sizes of records kept in words.
#[derive(Clone, Copy)]
pub struct Records {}

impl Records {
    // Words of a record.
    pub const WORDS: usize = 16;

    // Words of a record for each channel that a frame may have.
    pub const TABLE: usize = Settings::CHANNELS * Records::WORDS;

    // Numbers of a record.
    pub const NUMBERS: usize = 15;

    // The word of a record's time.
    pub const TIME: usize = 14;

    // The word of the octets below its channel.
    pub const BELOW: usize = 15;
}

// The settings that say how a channel's samples stand in a waveform, and what their bits mean.
#[derive(Clone, Copy)]
pub struct Sampling {
    pub block: u32,
    pub datatype: u8,
    pub null: Bits,
}

// A word of those from place i on.
fn word(t: &[u64], i: usize, a: usize) -> u64
    requires { i + a < length t.now }
    ensures { result ≡ words_at t.now i a }
{
    t[i + a]
}

// The number of a word's lowest octet.
fn one(x: u64) -> u8
    ensures { result ≡ low_of 1 x }
{
    (x % octets::ONE_OCTET) as u8
}

// The number of its two lowest octets.
fn two(x: u64) -> u16
    ensures { result ≡ low_of 2 x }
{
    (x % octets::TWO_OCTETS) as u16
}

// The number of its four lowest octets.
fn four(x: u64) -> u32
    ensures { result ≡ low_of 4 x }
{
    (x % octets::FOUR_OCTETS) as u32
}

// A unit, an exponent and a mantissa.
fn scale(t: &[u64], i: usize, a: usize) -> Scale
    requires { i + (a + 2) < length t.now }
    ensures { result ≡ scale_by (words_at t.now i) a }
{
    Scale {
        unit: one(word(t, i, a)),
        exponent: digits::signed_octet(one(word(t, i, a + 1))),
        mantissa: digits::lowest_signed(word(t, i, a + 2), 4),
    }
}

// A width and bits.
fn bits(t: &[u64], i: usize, a: usize) -> Bits
    requires { i + (a + 1) < length t.now }
    ensures { result ≡ bits_by (words_at t.now i) a }
{
    Bits {
        width: one(word(t, i, a)),
        bits: word(t, i, a + 1),
    }
}

// The record at place i.
fn record_at(t: &[u64], i: usize) -> Dated
    requires { i + record_numbers ≤ length t.now }
    ensures { result ≡ record_by (words_at t.now i) }
{
    let interval = scale(t, i, 4);
    let resolution = scale(t, i, 7);
    let offset = bits(t, i, 10);
    let null = bits(t, i, 12);
    let settings = Settings {
        block: four(word(t, i, 0)),
        class: two(word(t, i, 1)),
        lead: two(word(t, i, 2)),
        datatype: one(word(t, i, 3)),
        interval,
        resolution,
        offset,
        null,
    };
    Dated {
        settings,
        at: four(word(t, i, Records::TIME)),
    }
}

// Zeros, where there is no record.
fn zeros() -> Dated
    ensures { result ≡ zero_dated }
{
    let scale = Scale {
        unit: 0,
        exponent: 0,
        mantissa: 0,
    };
    let bits = Bits { width: 0, bits: 0 };
    Dated {
        settings: Settings {
            block: 0,
            class: 0,
            lead: 0,
            datatype: 0,
            interval: scale,
            resolution: scale,
            offset: bits,
            null: bits,
        },
        at: 0,
    }
}

// A record.
pub fn get(t: &[u64], k: usize) -> Dated
    ensures { result ≡ get_or (records_in t.now) k zero_dated }
{
    if k < t.len() / Records::WORDS {
        return record_at(t, k * Records::WORDS);
    }
    zeros()
}

// The word of a signed number: its two's complement.
pub fn signed_word(z: i64) -> u64
    ensures { twos 8 result ≡ z }
{
    z.cast_unsigned()
}

// The words of a record's numbers.
pub fn words_of(x: Dated) -> [u64; Records::NUMBERS]
    ensures { record_by (λ a. get_or result a 0) ≡ x }
{
    [
        u64::from(x.settings.block),
        u64::from(x.settings.class),
        u64::from(x.settings.lead),
        u64::from(x.settings.datatype),
        u64::from(x.settings.interval.unit),
        signed_word(i64::from(x.settings.interval.exponent)),
        signed_word(i64::from(x.settings.interval.mantissa)),
        u64::from(x.settings.resolution.unit),
        signed_word(i64::from(x.settings.resolution.exponent)),
        signed_word(i64::from(x.settings.resolution.mantissa)),
        u64::from(x.settings.offset.width),
        x.settings.offset.bits,
        u64::from(x.settings.null.width),
        x.settings.null.bits,
        u64::from(x.at),
    ]
}

// Stores a record's words from place i on.
fn overlay(t: &mut [u64], i: usize, w: [u64; Records::NUMBERS])
    requires { i + record_numbers ≤ length t.old }
    ensures { Overlaid t.old i w record_numbers t.new }
{
    let end = i + Records::NUMBERS;
    t[i..end].copy_from_slice(&w);
}

// A record stored.
pub fn put(t: &mut [u64], k: usize, x: Dated)
    ensures { Holding t.old (set (records_in t.old) k x) t.new }
{
    if t.len() / Records::WORDS <= k {
        return;
    }
    overlay(t, k * Records::WORDS, words_of(x));
}

// What a record holds.
pub fn held(t: &[u64], k: usize) -> Settings
    ensures { result ≡ (get_or (records_in t.now) k zero_dated).settings }
{
    let record = get(t, k);
    record.settings
}

// The octets of a sequence below a channel, as they are kept with its record; 0 where there is none.
pub fn below(t: &[u64], k: usize) -> u64
    ensures { result ≡ below_in t.now k }
{
    let held = t.len() / Records::WORDS;
    if k < held {
        return t[k * Records::WORDS + Records::BELOW];
    }
    0
}

// What a record holds of how its channel's samples stand and what they mean, with no other word read: for whoever asks at each sample.
pub fn sampling_at(t: &[u64], k: usize) -> Sampling
    ensures { result ≡ sampling_of (get_or (records_in t.now) k zero_dated).settings }
{
    if k < t.len() / Records::WORDS {
        let i = k * Records::WORDS;
        let missing = bits(t, i, 12);
        return Sampling {
            block: four(word(t, i, 0)),
            datatype: one(word(t, i, 3)),
            null: missing,
        };
    }
    Sampling {
        block: 0,
        datatype: 0,
        null: Bits { width: 0, bits: 0 },
    }
}
