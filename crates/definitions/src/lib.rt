// Definitions of attributes: the one way in which a file changes the settings of a channel.
//
// Promises, for any octets at all: `define` answers the change that a definition asks for, or 6 or 7; `block_read` and its like answer the
// value alone, or that it is refused. A new attribute is one more case of `Attribute`, and of `Change` in crate settings.
// Read first: specs/Define.antt.
#![tactic(auto)]

ghost use Rattle.std.specs.Prelude.{◌≡◌, get_or};
ghost use Rattle.definitions.specs.Define.{tagged, scale_length, bits_length, length_fits, standing_in, scale_of, bits_of, change_of, block_fits, scale_fits, in_range, defined, block_read, code_read, type_read, scale_read, bits_read};

use heads::Fault;
use settings::{Change, Scale, Settings};
use values::Bits;

// The attributes that may stand in a group.
#[derive(Clone, Copy)]
pub enum Attribute {
    Block,
    Class,
    Lead,
    DataType,
    Interval,
    Resolution,
    Offset,
    Null,
}

#[tactic(auto, unfolding(crate::specs::Define::tagged))]
pub fn attribute_of(tag: u8) -> Option<Attribute>
    ensures { result ≡ tagged tag }
{
    match tag {
        0x04 => Some(Attribute::Block),
        0x08 => Some(Attribute::Class),
        0x09 => Some(Attribute::Lead),
        0x0A => Some(Attribute::DataType),
        0x0B => Some(Attribute::Interval),
        0x0C => Some(Attribute::Resolution),
        0x0D => Some(Attribute::Offset),
        0x12 => Some(Attribute::Null),
        _ => None,
    }
}

// The lengths that an interval or a resolution may have.
fn scale_length(n: usize) -> bool
    ensures { result ≡ scale_length n }
{
    n == 0 || (3 <= n && n <= 6)
}

// The lengths that bits may have.
fn bits_length(n: usize) -> bool
    ensures { result ≡ bits_length n }
{
    n <= 2 || (n == 4 || n == 8)
}

// The lengths of document 01's table.
fn length_fits(a: Attribute, n: usize) -> bool
    ensures { result ≡ length_fits a n }
{
    match a {
        Attribute::Block => n <= 4,
        Attribute::Class => n <= 34,
        Attribute::Lead => n <= 34,
        Attribute::DataType => n <= 1,
        Attribute::Interval => scale_length(n),
        Attribute::Resolution => scale_length(n),
        Attribute::Offset => bits_length(n),
        Attribute::Null => bits_length(n),
    }
}

// An attribute as it stands in a record.
fn standing_in(a: Attribute, s: Settings) -> Change
    ensures { result ≡ standing_in a s }
{
    let interval = s.interval;
    let resolution = s.resolution;
    let offset = s.offset;
    let null = s.null;
    match a {
        Attribute::Block => Change::Block(s.block),
        Attribute::Class => Change::Class(s.class),
        Attribute::Lead => Change::Lead(s.lead),
        Attribute::DataType => Change::DataType(s.datatype),
        Attribute::Interval => Change::Interval(interval),
        Attribute::Resolution => Change::Resolution(resolution),
        Attribute::Offset => Change::Offset(offset),
        Attribute::Null => Change::Null(null),
    }
}

// The octet at a place, 0 past the end.
fn octet(v: &[u8], at: usize) -> u8
    ensures { result ≡ get_or v.now at 0 }
{
    if at < v.len() { v[at] } else { 0 }
}

// A unit octet, a signed exponent octet and a mantissa, which alone is turned by the byte order.
#[tactic(auto, unfolding(crate::specs::Define::scale_of))]
fn scale_of(v: &[u8], little: bool) -> Scale
    ensures { result ≡ scale_of «little» v.now }
{
    Scale {
        unit: octet(v, 0),
        exponent: digits::signed_octet(octet(v, 1)),
        mantissa: digits::signed(octets::part(v, 2, 4), little),
    }
}

// Bits of at most eight octets, and how many octets they are.
fn bits_of(v: &[u8], little: bool) -> Bits
    ensures { result ≡ bits_of «little» v.now }
{
    let x = octets::part(v, 0, 8);
    Bits {
        width: x.len() as u8,
        bits: octets::number(x, little),
    }
}

// The new value that a definition's octets hold.
fn change_of(a: Attribute, v: &[u8], little: bool) -> Change
    ensures { result ≡ change_of a «little» v.now }
{
    match a {
        Attribute::Block => Change::Block(digits::four(v, little)),
        Attribute::Class => Change::Class(digits::two(v, little)),
        Attribute::Lead => Change::Lead(digits::two(v, little)),
        Attribute::DataType => Change::DataType(octet(v, 0)),
        Attribute::Interval => Change::Interval(scale_of(v, little)),
        Attribute::Resolution => Change::Resolution(scale_of(v, little)),
        Attribute::Offset => Change::Offset(bits_of(v, little)),
        Attribute::Null => Change::Null(bits_of(v, little)),
    }
}

fn block_fits(n: u32) -> bool
    ensures { result ≡ block_fits n }
{
    1 <= n && n <= Settings::BLOCK_LIMIT
}

// A unit up to the last one, and a mantissa of at least 1.
fn scale_fits(last: u8, x: Scale) -> bool
    ensures { result ≡ scale_fits last x }
{
    x.unit <= last && 0 < x.mantissa
}

// The values of document 01's table.
fn in_range(c: Change) -> bool
    ensures { result ≡ in_range c }
{
    match c {
        Change::Block(n) => block_fits(n),
        Change::Class(_) => true,
        Change::Lead(_) => true,
        Change::DataType(n) => n <= Settings::LAST_DATA_TYPE,
        Change::Interval(x) => scale_fits(Settings::LAST_INTERVAL_UNIT, x),
        Change::Resolution(x) => scale_fits(Settings::LAST_RESOLUTION_UNIT, x),
        Change::Offset(_) => true,
        Change::Null(_) => true,
    }
}

// The definition of an attribute by the octets v; length 0 goes back to what stands in `base`.
#[tactic(auto, unfolding(crate::specs::Define::defined))]
pub fn define(a: Attribute, v: &[u8], little: bool, base: Settings) -> Result<Change, Fault>
    ensures { result ≡ defined a «little» base v.now }
{
    if !length_fits(a, v.len()) {
        return Err(Fault::UnfitLength);
    }
    if v.len() == 0 {
        return Ok(standing_in(a, base));
    }
    let c = change_of(a, v, little);
    if in_range(c) {
        Ok(c)
    } else {
        Err(Fault::UnfitValue)
    }
}

// The block length that v gives; length 0 goes back to `base`, here and below.
#[tactic(auto, unfolding(crate::specs::Define::read_as))]
pub fn block_read(v: &[u8], little: bool, base: u32) -> Option<u32>
    ensures { result ≡ block_read «little» base v.now }
{
    if !length_fits(Attribute::Block, v.len()) {
        return None;
    }
    if v.len() == 0 {
        return Some(base);
    }
    let n = digits::four(v, little);
    if block_fits(n) { Some(n) } else { None }
}

// The code of a class or a lead.
#[tactic(auto, unfolding(crate::specs::Define::read_as))]
pub fn code_read(v: &[u8], little: bool, base: u16) -> Option<u16>
    ensures { result ≡ code_read «little» base v.now }
{
    if !length_fits(Attribute::Class, v.len()) {
        return None;
    }
    if v.len() == 0 {
        Some(base)
    } else {
        Some(digits::two(v, little))
    }
}

// The data type.
#[tactic(auto, unfolding(crate::specs::Define::read_as))]
pub fn type_read(v: &[u8], base: u8) -> Option<u8>
    ensures { result ≡ type_read base v.now }
{
    if !length_fits(Attribute::DataType, v.len()) {
        return None;
    }
    if v.len() == 0 {
        return Some(base);
    }
    let n = octet(v, 0);
    if n <= Settings::LAST_DATA_TYPE {
        Some(n)
    } else {
        None
    }
}

// An interval or a resolution, whose last unit is `last`.
#[tactic(auto, unfolding(crate::specs::Define::read_as))]
pub fn scale_read(v: &[u8], little: bool, last: u8, base: Scale) -> Option<Scale>
    ensures { result ≡ scale_read last «little» base v.now }
{
    if !scale_length(v.len()) {
        return None;
    }
    if v.len() == 0 {
        return Some(base);
    }
    let x = scale_of(v, little);
    if scale_fits(last, x) { Some(x) } else { None }
}

// An offset or a null. It is put together from its parts, so that what lies between them is not copied.
#[tactic(auto, unfolding(crate::specs::Define::read_as))]
pub fn bits_read(v: &[u8], little: bool, base: Bits) -> Option<Bits>
    ensures { result ≡ bits_read «little» base v.now }
{
    if !bits_length(v.len()) {
        return None;
    }
    if v.len() == 0 {
        return Some(Bits {
            width: base.width,
            bits: base.bits,
        });
    }
    Some(bits_of(v, little))
}
