// The settings of channels as a caller hands them over: rows of numbers and of bits, one behind the other, a row for each channel.
//
// Row i is `Row::NUMBERS` numbers from i * `Row::NUMBERS` on, in the order in which the attributes of a channel are told, and `Row::BITS` bits. Four of the numbers, start
// pointer, channels, sequences and sample width, are not looked at.
// Read first: specs/Given.antt.
ghost use Rattle.std.specs.Prelude.{true, ◌≡◌, ◌+◌, ◌≤◌, ◌<◌, length};
ghost use Rattle.octets.specs.Pick.{both};
ghost use Rattle.settings.specs.Settings.{last_resolution_unit};
ghost use Rattle.maker.specs.Given.{given_scale, given_at, last_mantissa, within, exponent_fits, scale_in_table, natural_of, width_given, bits_fit, no_null};
ghost use Rattle.maker.specs.Given.{numbers_in_table, scales_in_table, bits_in_table, in_table, scale_made, null_made, settings_made};
ghost use Rattle.maker.specs.Rows.{number_at, RowThere, RowsThere, measured};

use layout::Layout;
use settings::{Scale, Settings};
use values::Bits;

// A row: that of channel `index`.
#[derive(Clone, Copy)]
pub(crate) struct Row<'a> {
    pub numbers: &'a [i64],
    pub bits: &'a [u64],
    pub index: usize,
    ghost there: { RowThere numbers.now bits.now index },
}

// The sizes of a row, and the places of what is looked at.
impl Row<'_> {
    // Numbers of a row.
    pub const NUMBERS: usize = numbers::NUMBERS;

    // Bits of a row.
    pub const BITS: usize = 2;

    const BLOCK: usize = 3;

    const CLASS: usize = 4;

    const LEAD: usize = 5;

    const DATA_TYPE: usize = 6;

    const INTERVAL: usize = 7;

    const RESOLUTION: usize = 10;

    const NULL_WIDTH: usize = 14;

    // The last class or lead code.
    const LAST_CODE: u64 = 65_535;

    // The last mantissa.
    const LAST_MANTISSA: u64 = 2_147_483_647;
}

// Both tests hold.
fn all(a: bool, b: bool) -> bool
    ensures { result ≡ both a b }
{
    if a { b } else { false }
}

// A number from `low` to `high`.
fn is_within(numbers: &[i64], at: usize, low: u64, high: u64) -> bool
    requires { at < length numbers.now }
    ensures { result ≡ within low high (number_at numbers.now at) }
{
    let z = numbers[at];
    if z < 0 {
        return false;
    }
    let n = z as u64;
    if low <= n {
        return n <= high;
    }
    false
}

// An exponent of signed 8 bits.
fn exponent_fits(numbers: &[i64], at: usize) -> bool
    requires { at < length numbers.now }
    ensures { result ≡ exponent_fits (number_at numbers.now at) }
{
    let z = numbers[at];
    -128 <= z && z <= 127
}

// A number as it is, and 0 for one below 0.
fn natural(numbers: &[i64], at: usize) -> u64
    requires { at < length numbers.now }
    ensures { result ≡ natural_of (number_at numbers.now at) }
{
    let z = numbers[at];
    if z < 0 {
        return 0;
    }
    z as u64
}

// An exponent that fits.
fn exponent(numbers: &[i64], at: usize) -> i8
    requires { (at < length numbers.now) × (exponent_fits (number_at numbers.now at) ≡ true) }
    ensures { result ≡ number_at numbers.now at }
{
    let z = numbers[at];
    z as i8
}

// A mantissa that fits.
fn mantissa(numbers: &[i64], at: usize) -> i32
    requires { (at < length numbers.now) × (within 1 last_mantissa (number_at numbers.now at) ≡ true) }
    ensures { result ≡ number_at numbers.now at }
{
    let z = numbers[at];
    z as i32
}

// Bits that are not wider than a sample of so many octets.
fn bits_fit(width: usize, x: u64) -> bool
    ensures { result ≡ bits_fit width x }
{
    digits::lowest(x, width) == x
}

// There is no null.
fn no_null(numbers: &[i64], at: usize) -> bool
    requires { at < length numbers.now }
    ensures { result ≡ no_null (number_at numbers.now at) }
{
    numbers[at] == 0
}

// A unit, an exponent and a mantissa are in the table.
fn scale_fits(numbers: &[i64], at: usize, last: u64) -> bool
    requires { at + 2 < length numbers.now }
    ensures { result ≡ scale_in_table last (given_scale (number_at numbers.now) at) }
{
    let unit = is_within(numbers, at, 0, last);
    let exponent = exponent_fits(numbers, at + 1);
    let mantissa = is_within(numbers, at + 2, 1, Row::LAST_MANTISSA);
    all(unit, all(exponent, mantissa))
}

// A unit, an exponent and a mantissa that are in the table.
fn scale(numbers: &[i64], at: usize, last: u64) -> Scale
    requires { (at + 2 < length numbers.now) × (last ≤ last_resolution_unit) × (scale_in_table last (given_scale (number_at numbers.now) at) ≡ true) }
    ensures { result ≡ scale_made (given_scale (number_at numbers.now) at) }
{
    Scale {
        unit: natural(numbers, at) as u8,
        exponent: exponent(numbers, at + 1),
        mantissa: mantissa(numbers, at + 2),
    }
}

impl Row<'_> {
    // Block length, codes and data type are in the table.
    fn numbers_fit(self) -> bool
        ensures { result ≡ numbers_in_table (given_at self.entry.numbers.now self.entry.bits.now self.entry.index) }
    {
        let at = self.index * Row::NUMBERS;
        let block = is_within(
            self.numbers,
            at + Row::BLOCK,
            1,
            Settings::BLOCK_LIMIT as u64,
        );
        let class = is_within(self.numbers, at + Row::CLASS, 0, Row::LAST_CODE);
        let lead = is_within(self.numbers, at + Row::LEAD, 0, Row::LAST_CODE);
        let datatype = is_within(
            self.numbers,
            at + Row::DATA_TYPE,
            0,
            Settings::LAST_DATA_TYPE as u64,
        );
        all(block, all(class, all(lead, datatype)))
    }

    // Interval and resolution are.
    fn scales_fit(self) -> bool
        ensures { result ≡ scales_in_table (given_at self.entry.numbers.now self.entry.bits.now self.entry.index) }
    {
        let at = self.index * Row::NUMBERS;
        let interval = scale_fits(
            self.numbers,
            at + Row::INTERVAL,
            Settings::LAST_INTERVAL_UNIT as u64,
        );
        let resolution = scale_fits(
            self.numbers,
            at + Row::RESOLUTION,
            Settings::LAST_RESOLUTION_UNIT as u64,
        );
        all(interval, resolution)
    }

    // The data type, which is in the table.
    fn data_type(self) -> u8
        requires { numbers_in_table (given_at self.numbers.now self.bits.now self.index) ≡ true }
        ensures { result ≡ natural_of (given_at self.entry.numbers.now self.entry.bits.now self.entry.index).datatype }
    {
        natural(self.numbers, self.index * Row::NUMBERS + Row::DATA_TYPE) as u8
    }

    // Offset and null are not wider than its samples.
    fn bits_within(self) -> bool
        requires { numbers_in_table (given_at self.numbers.now self.bits.now self.index) ≡ true }
        ensures { result ≡ bits_in_table (given_at self.entry.numbers.now self.entry.bits.now self.entry.index) }
    {
        let width = values::width(self.data_type());
        let offset = bits_fit(width, self.bits[self.index * Row::BITS]);
        let null = bits_fit(width, self.bits[self.index * Row::BITS + 1]);
        let none = no_null(self.numbers, self.index * Row::NUMBERS + Row::NULL_WIDTH);
        if none {
            return offset;
        }
        all(offset, null)
    }

    // Every setting is in the table.
    fn fits(self) -> bool
        ensures { result ≡ in_table (given_at self.entry.numbers.now self.entry.bits.now self.entry.index) }
    {
        if !self.numbers_fit() {
            return false;
        }
        let scales = self.scales_fit();
        let within = self.bits_within();
        all(scales, within)
    }

    // The null, of samples of so many octets.
    fn null(self, width: u8) -> Bits
        requires { width ≡ width_given (given_at self.numbers.now self.bits.now self.index) }
        ensures { result ≡ null_made (given_at self.entry.numbers.now self.entry.bits.now self.entry.index) }
    {
        if no_null(self.numbers, self.index * Row::NUMBERS + Row::NULL_WIDTH) {
            return Bits { width: 0, bits: 0 };
        }
        Bits {
            width,
            bits: self.bits[self.index * Row::BITS + 1],
        }
    }

    // The settings, which are in the table.
    pub(crate) fn settings(self) -> Settings
        requires { in_table (given_at self.numbers.now self.bits.now self.index) ≡ true }
        ensures { result ≡ settings_made (given_at self.entry.numbers.now self.entry.bits.now self.entry.index) }
    {
        let at = self.index * Row::NUMBERS;
        let datatype = self.data_type();
        let width = values::width(datatype) as u8;
        let interval = scale(
            self.numbers,
            at + Row::INTERVAL,
            Settings::LAST_INTERVAL_UNIT as u64,
        );
        let resolution = scale(
            self.numbers,
            at + Row::RESOLUTION,
            Settings::LAST_RESOLUTION_UNIT as u64,
        );
        let null = self.null(width);
        Settings {
            block: natural(self.numbers, at + Row::BLOCK) as u32,
            class: natural(self.numbers, at + Row::CLASS) as u16,
            lead: natural(self.numbers, at + Row::LEAD) as u16,
            datatype,
            interval,
            resolution,
            offset: Bits {
                width,
                bits: self.bits[self.index * Row::BITS],
            },
            null,
        }
    }
}

// The layout of the channels of the first n rows, or that one of them is outside the table.
pub(crate) fn measure(numbers: &[i64], bits: &[u64], n: usize) -> Option<Layout>
    requires { RowsThere numbers.now bits.now n }
    ensures { result ≡ measured n numbers.now bits.now }
{
    let mut l = Layout::none();
    for index in 0..n {
        let row = Row {
            numbers,
            bits,
            index,
        };
        if !row.fits() {
            return None;
        }
        l = l.more(index, 0, row.settings());
    }
    Some(l)
}
