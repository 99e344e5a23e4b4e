// Values: what the bits of one sample stand for.
//
// For the answer to a sample's question, and for every crate that keeps null or offset bits (Bits).
// Promises: each public function answers for every input and its whole answer is a definition of specs/Sample.antt. A
// single or double that is handed out has exactly the file's bits, and so has a float that is no number (proofs/Exact.antt).
// Read first: specs/Sample.antt, in the order of the rules.
#![tactic(auto)]

ghost use Rattle.std.specs.Prelude.{◌≡◌, ◌<◌, ◌≤◌, pos};
ghost use Rattle.octets.specs.Number.{range, twos};
ghost use Rattle.values.specs.Sample.{width_of, whole_said, value_says, single_of, double_of, plain_of, low_bits, value_of};
ghost use Rattle.values.specs.Told.{shape_of, meaning_of, whole_told, signless, number_told, told_of};

// A value is one of seven kinds; `value_says` has their numbers. `NoData` is the value of a sample that is not there: no bits have it.
#[derive(Clone, Copy)]
pub enum Value {
    Whole(i64),
    Status(u16),
    Single(f32),
    Double(f64),
    NotNumber(u64),
    Null,
    NoData,
}

// Raw bits of a width in octets. Width 0: not defined.
#[derive(Clone, Copy)]
pub struct Bits {
    pub width: u8,
    pub bits: u64,
}

// What bits that are not null's stand for, with numbers in it, so that no sample asks for its data type. A whole number up to `last` is itself, and one
// above it stands for itself less the range that ends at `top`. Any other is of `kind`, and no number where it is above `infinity` without `sign`.
#[derive(Clone, Copy)]
pub enum Shape {
    Whole { last: u32, top: u32 },
    Other { kind: u8, sign: u64, infinity: u64 },
}

// What the bits of a data type's samples mean: null comes first.
#[derive(Clone, Copy)]
pub struct Meaning {
    pub shape: Shape,
    pub null: Bits,
}

// The number of a value's kind, and its number where it is whole, else 0. A kind stays a number here: `mfer_values` writes it into a C program's octets.
#[derive(Clone, Copy)]
pub struct Telling {
    pub kind: u8,
    pub whole: i64,
}

// Octets of a sample by its data type.
pub fn width(datatype: u8) -> usize
    ensures { result ≡ width_of datatype }
{
    match datatype {
        0 => 2,
        1 => 2,
        2 => 4,
        3 => 1,
        4 => 2,
        5 => 1,
        6 => 4,
        7 => 4,
        8 => 8,
        _ => 0,
    }
}

// A whole number with a sign, of w octets.
fn whole(n: u64, w: usize) -> Value
    requires { (w ≤ 4) × (n < range w) }
    ensures { value_says result ≡ whole_said (twos w n) }
{
    Value::Whole(digits::lowest_signed(n, w) as i64)
}

// A whole number without a sign.
fn count(n: u64) -> Value
    requires { n < range 4 }
    ensures { value_says result ≡ whole_said (pos n) }
{
    Value::Whole(n as i64)
}

// A single, or its bits where they are no number's: without the sign they are above infinity's.
fn single(n: u64) -> Value
    requires { n < range 4 }
    ensures { value_says result ≡ single_of n }
{
    if 0x7F800000 < n % 0x80000000 {
        return Value::NotNumber(n);
    }
    Value::Single(f32::from_bits(n as u32))
}

// A double, or its bits where they are no number's.
fn double(n: u64) -> Value
    ensures { value_says result ≡ double_of n }
{
    if 0x7FF0000000000000 < n % 0x8000000000000000 {
        return Value::NotNumber(n);
    }
    Value::Double(f64::from_bits(n))
}

// A sample that is not null, of the bits n.
fn plain(datatype: u8, n: u64) -> Value
    requires { n < range (width_of datatype) }
    ensures { value_says result ≡ plain_of datatype n }
{
    match datatype {
        0 | 2 | 5 => whole(n, width(datatype)),
        1 | 3 | 6 => count(n),
        4 => Value::Status(n as u16),
        7 => single(n),
        8 => double(n),
        _ => Value::Whole(0),
    }
}

// The value of a sample's bits; bits above its width are not looked at.
pub fn sample_value(bits: u64, datatype: u8, null: Bits) -> Value
    ensures { value_says result ≡ value_of datatype null (low_bits datatype bits) }
{
    let n = digits::lowest(bits, width(datatype));
    if null.width != 0 {
        if null.bits == n {
            return Value::Null;
        }
    }
    plain(datatype, n)
}

// A whole number, where bits up to `last` are themselves and those above it stand for themselves less the range that ends at `top`.
fn whole_told(last: u32, top: u32, bits: u64) -> i64
    ensures { result ≡ whole_told last top bits }
{
    if bits <= last as u64 {
        return bits as i64;
    }
    if bits <= top as u64 {
        return !((top as u64 - bits) as i64);
    }
    0
}

// Bits without their sign.
fn signless(sign: u64, bits: u64) -> u64
    ensures { result ≡ signless sign bits }
{
    if bits < sign { bits } else { bits - sign }
}

impl Shape {
    // By data type.
    fn of_type(datatype: u8) -> Shape
        ensures { result ≡ shape_of datatype }
    {
        match datatype {
            0 => Shape::Whole {
                last: 0x7FFF,
                top: 0xFFFF,
            },
            2 => Shape::Whole {
                last: 0x7FFF_FFFF,
                top: 0xFFFF_FFFF,
            },
            4 => Shape::Other {
                kind: 1,
                sign: 0x1_0000,
                infinity: 0xFFFF,
            },
            5 => Shape::Whole {
                last: 0x7F,
                top: 0xFF,
            },
            7 => Shape::Other {
                kind: 2,
                sign: 0x8000_0000,
                infinity: 0x7F80_0000,
            },
            8 => Shape::Other {
                kind: 3,
                sign: 0x8000_0000_0000_0000,
                infinity: 0x7FF0_0000_0000_0000,
            },
            _ => Shape::Whole {
                last: 0xFFFF_FFFF,
                top: 0xFFFF_FFFF,
            },
        }
    }

    // Bits that are not null's.
    fn number(self, bits: u64) -> Telling
        ensures { result ≡ number_told self bits }
    {
        match self {
            Shape::Whole { last, top } => Telling {
                kind: 0,
                whole: whole_told(last, top, bits),
            },
            Shape::Other {
                kind,
                sign,
                infinity,
            } => {
                if infinity < signless(sign, bits) {
                    return Telling { kind: 4, whole: 0 };
                }
                Telling { kind, whole: 0 }
            }
        }
    }
}

impl Meaning {
    // By data type and null.
    pub fn of_type(datatype: u8, null: Bits) -> Meaning
        ensures { result ≡ meaning_of datatype null }
    {
        Meaning {
            shape: Shape::of_type(datatype),
            null,
        }
    }

    // What some bits are: of a sample's bits the kind and the whole number of its value (proofs/Told.antt: told-is).
    pub fn tell(self, bits: u64) -> Telling
        ensures { result ≡ told_of self bits }
    {
        let missing = self.null;
        if missing.width != 0 {
            if missing.bits == bits {
                return Telling { kind: 5, whole: 0 };
            }
        }
        self.shape.number(bits)
    }
}
