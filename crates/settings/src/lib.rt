// The settings of a channel: the attributes of document 01's table that may stand in a group, their defaults and limits, and one of
// them changed.
//
// Promises: `Settings::default` answers document 01's defaults; `apply` carries a change out in one record;
// `Settings::at_most` cuts a count down to the channels that a frame may have. A new attribute is one more case of `Change`, and of `Attribute` in crate definitions.
// Read first: specs/Settings.antt.
#![tactic(auto)]

ghost use Rattle.std.specs.Prelude.{◌≡◌, min};
ghost use Rattle.settings.specs.Settings.{channel_limit, default_settings, applied};

use values::Bits;

// A unit, an exponent of ten and a mantissa.
#[derive(Clone, Copy)]
pub struct Scale {
    pub unit: u8,
    pub exponent: i8,
    pub mantissa: i32,
}

// What stands for one channel. Offset and null of width 0 are not defined.
#[derive(Clone, Copy)]
pub struct Settings {
    pub block: u32,
    pub class: u16,
    pub lead: u16,
    pub datatype: u8,
    pub interval: Scale,
    pub resolution: Scale,
    pub offset: Bits,
    pub null: Bits,
}

impl Settings {
    // Channels of a frame, and so records of settings.
    pub const CHANNELS: usize = 256;

    // The largest block length.
    pub const BLOCK_LIMIT: u32 = 1_048_576;

    // The last data type.
    pub const LAST_DATA_TYPE: u8 = 8;

    // The last unit of an interval.
    pub const LAST_INTERVAL_UNIT: u8 = 2;

    // The last unit of a resolution.
    pub const LAST_RESOLUTION_UNIT: u8 = 22;

    // No more channels than a frame may have.
    pub fn at_most(count: usize) -> usize
        ensures { result ≡ min count channel_limit }
    {
        count.min(Settings::CHANNELS)
    }
}

// Document 01's defaults.
impl Default for Settings {
    ghost is_default = { λ s. s ≡ default_settings };

    fn default() -> Settings {
        Settings {
            block: 1,
            class: 0,
            lead: 0,
            datatype: 0,
            interval: Scale {
                unit: 0,
                exponent: 0,
                mantissa: 1000,
            },
            resolution: Scale {
                unit: 0,
                exponent: -6,
                mantissa: 1,
            },
            offset: Bits { width: 0, bits: 0 },
            null: Bits { width: 0, bits: 0 },
        }
    }
}

// One attribute's new value.
#[derive(Clone, Copy)]
pub enum Change {
    Block(u32),
    Class(u16),
    Lead(u16),
    DataType(u8),
    Interval(Scale),
    Resolution(Scale),
    Offset(Bits),
    Null(Bits),
}

// A record with one attribute changed.
pub fn apply(s: Settings, c: Change) -> Settings
    ensures { result ≡ applied c s }
{
    let mut t = s;
    match c {
        Change::Block(n) => {
            t.block = n;
        }
        Change::Class(n) => {
            t.class = n;
        }
        Change::Lead(n) => {
            t.lead = n;
        }
        Change::DataType(n) => {
            t.datatype = n;
        }
        Change::Interval(x) => {
            t.interval = x;
        }
        Change::Resolution(x) => {
            t.resolution = x;
        }
        Change::Offset(x) => {
            t.offset = x;
        }
        Change::Null(x) => {
            t.null = x;
        }
    }
    t
}
