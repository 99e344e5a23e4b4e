// Answers as numbers: the attributes of a channel, a sample's value and a frame of a walk, as an array or a number each.
//
// For callers that take plain numbers only, as the functions for C do (crate outputs), and for the maker, which takes the attributes in the same order.
// Promises, for any answer: each number is what a definition of specs/ says, in its order.
// Read first: specs/Numbers.antt.
#![tactic(auto)]

ghost use Rattle.std.specs.Prelude.{◌≡◌};
ghost use Rattle.values.specs.Sample.{value_says};
ghost use Rattle.numbers.specs.Numbers.{numbers_of, bit_pair_of, flag_number, frame_numbers_of};

use reader::Attributes;
use values::Value;
use walk::Waveform;

// The attributes that are numbers.
pub const NUMBERS: usize = 15;

// The numbers of a frame, besides its start pointer.
pub const FRAME_NUMBERS: usize = 6;

// The attributes that are numbers.
pub fn numbers_of(a: Attributes) -> [i64; NUMBERS]
    ensures { result ≡ numbers_of a }
{
    [
        a.start,
        i64::from(a.channels),
        i64::from(a.sequences),
        i64::from(a.settings.block),
        i64::from(a.settings.class),
        i64::from(a.settings.lead),
        i64::from(a.settings.datatype),
        i64::from(a.settings.interval.unit),
        i64::from(a.settings.interval.exponent),
        i64::from(a.settings.interval.mantissa),
        i64::from(a.settings.resolution.unit),
        i64::from(a.settings.resolution.exponent),
        i64::from(a.settings.resolution.mantissa),
        i64::from(a.settings.offset.width),
        i64::from(a.settings.null.width),
    ]
}

// The bits of the offset and of null.
pub fn bit_pair_of(a: Attributes) -> [u64; 2]
    ensures { result ≡ bit_pair_of a }
{
    [a.settings.offset.bits, a.settings.null.bits]
}

// The number of a value's kind.
pub fn kind_of(v: Value) -> u32
    ensures { result ≡ (value_says v).kind }
{
    match v {
        Value::Whole(_) => 0,
        Value::Status(_) => 1,
        Value::Single(_) => 2,
        Value::Double(_) => 3,
        Value::NotNumber(_) => 4,
        Value::Null => 5,
        Value::NoData => 6,
    }
}

// The number of a whole value, and 0 of every other kind.
pub fn whole_of(v: Value) -> i64
    ensures { result ≡ (value_says v).whole }
{
    match v {
        Value::Whole(z) => z,
        Value::Status(_) => 0,
        Value::Single(_) => 0,
        Value::Double(_) => 0,
        Value::NotNumber(_) => 0,
        Value::Null => 0,
        Value::NoData => 0,
    }
}

// 1 for yes.
fn flag_number(b: bool) -> u64
    ensures { result ≡ flag_number b }
{
    u64::from(b)
}

// The numbers of a frame, besides its start pointer.
pub fn frame_numbers(v: Waveform) -> [u64; FRAME_NUMBERS]
    ensures { result ≡ frame_numbers_of v }
{
    [
        u64::from(v.channels),
        u64::from(v.sequences),
        flag_number(v.little),
        v.place as u64,
        v.len as u64,
        v.octets,
    ]
}
