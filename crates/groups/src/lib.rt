// A frame's head (05, 06 and 07) and a channel's group (3F) in the canonical form.
//
// Promises: `put_head` and `put_group` store these octets from the place `at` on and return the place after them; where they do not fit, nothing
// is stored and `at` is returned. `Putting` of crate stores says this once.
// Read first: specs/Head.antt and specs/Group.antt (the octets).
// Each of the two makes one test, against the size that crate sizes answers. What is private here stores what fits: `Put` says which octets, from where on.
#![tactic(auto)]

ghost use Rattle.std.specs.Prelude.{◌≡◌, ◌+◌, ◌≤◌, ◌<◌, length};
ghost use Rattle.std.specs.Int.Signed.{mag};
ghost use Rattle.stores.specs.Storing.{Put, Putting};
ghost use Rattle.layout.specs.Frame.{width_in, reported};
ghost use Rattle.sizes.specs.Size.{content_size};
ghost use Rattle.groups.specs.Head.{sequences_item, head_items};
ghost use Rattle.groups.specs.Group.{channel_octets, scale_item, group_items, group_octets};
ghost use Rattle.groups.specs.Parts.{unsigned_by, first_items, scale_items, last_items};

use settings::{Scale, Settings};

// A signed number in two's complement, where `full` numbers can be told apart.
fn unsigned(z: i64, full: u64) -> u64
    requires { mag z < full }
    ensures { result ≡ unsigned_by full z }
{
    if z < 0 {
        return full - z.unsigned_abs();
    }
    z.unsigned_abs()
}

// 0B or 0C.
fn put_scale(out: &mut [u8], at: usize, tag: u8, x: Scale) -> usize
    requires { at + length (scale_item tag x) ≤ length out.old }
    ensures { Put out.old at (scale_item tag x) result out.new }
{
    let exponent = unsigned(i64::from(x.exponent), octets::ONE_OCTET);
    let mantissa = unsigned(i64::from(x.mantissa), octets::FOUR_OCTETS);
    let a = stores::put_two(out, at, tag, 6);
    let b = stores::put_octet(out, a, x.unit);
    let c = stores::put_number(out, b, 1, exponent);
    stores::put_number(out, c, 4, mantissa)
}

// 04, 08, 09 and 0A.
fn put_first(out: &mut [u8], at: usize, c: Settings) -> usize
    requires { at + length (first_items c) ≤ length out.old }
    ensures { Put out.old at (first_items c) result out.new }
{
    let a = stores::put_field(out, at, 0x04, 4, u64::from(c.block));
    let b = stores::put_field(out, a, 0x08, 2, u64::from(c.class));
    let d = stores::put_field(out, b, 0x09, 2, u64::from(c.lead));
    stores::put_field(out, d, 0x0A, 1, u64::from(c.datatype))
}

// 0B and 0C.
fn put_scales(out: &mut [u8], at: usize, c: Settings) -> usize
    requires { at + length (scale_items c) ≤ length out.old }
    ensures { Put out.old at (scale_items c) result out.new }
{
    let interval = c.interval;
    let resolution = c.resolution;
    let a = put_scale(out, at, 0x0B, interval);
    put_scale(out, a, 0x0C, resolution)
}

// 0D and 12.
fn put_last(out: &mut [u8], at: usize, c: Settings) -> usize
    requires { at + length (last_items c) ≤ length out.old }
    ensures { Put out.old at (last_items c) result out.new }
{
    let offset = layout::offset_bits(c);
    let null = c.null;
    let w = values::width(c.datatype) as u8;
    let n = sizes::null_size(w, null) as u8;
    let a = stores::put_field(out, at, 0x0D, w, offset.bits);
    stores::put_field(out, a, 0x12, n, null.bits)
}

// The items of a channel's group.
fn put_items(out: &mut [u8], at: usize, c: Settings) -> usize
    requires { at + length (group_items (reported c)) ≤ length out.old }
    ensures { Put out.old at (group_items (reported c)) result out.new }
{
    let a = put_first(out, at, c);
    let b = put_scales(out, a, c);
    put_last(out, b, c)
}

// A channel number in its shortest form.
fn put_channel(out: &mut [u8], at: usize, k: u8) -> usize
    ensures { Putting out.old at (channel_octets k) result out.new }
{
    if k < 128 {
        return stores::put_octet(out, at, k);
    }
    stores::put_two(out, at, 128 + k / 128, k % 128)
}

// A channel's group, with the octets that its items take.
fn store_group(out: &mut [u8], at: usize, k: u8, n: u8, c: Settings) -> usize
    requires { (n ≡ content_size (width_in c) c.null) × (at + length (group_octets k (reported c)) ≤ length out.old) }
    ensures { Put out.old at (group_octets k (reported c)) result out.new }
{
    let a = stores::put_octet(out, at, 0x3F);
    let b = put_channel(out, a, k);
    let d = stores::put_octet(out, b, n);
    put_items(out, d, c)
}

// Stores channel k's group.
pub fn put_group(out: &mut [u8], at: usize, k: u8, c: Settings) -> usize
    ensures { Putting out.old at (group_octets k (reported c)) result out.new }
{
    let w = values::width(c.datatype) as u8;
    let null = c.null;
    if stores::overruns(out.len(), at, sizes::group_size(usize::from(k), w, null)) {
        return at;
    }
    store_group(out, at, k, sizes::content_size(w, null) as u8, c)
}

// 06 with four octets, or none for 0 sequences.
fn put_sequences(out: &mut [u8], at: usize, sequences: u32) -> usize
    ensures { Putting out.old at (sequences_item sequences) result out.new }
{
    if sequences == 0 {
        return stores::put_two(out, at, 0x06, 0);
    }
    stores::put_field(out, at, 0x06, 4, u64::from(sequences))
}

// 05, 06 and 07.
fn store_head(out: &mut [u8], at: usize, count: u32, sequences: u32, start: i32) -> usize
    requires { at + length (head_items count sequences start) ≤ length out.old }
    ensures { Put out.old at (head_items count sequences start) result out.new }
{
    let z = unsigned(i64::from(start), octets::FOUR_OCTETS);
    let a = stores::put_field(out, at, 0x05, 4, u64::from(count));
    let b = put_sequences(out, a, sequences);
    stores::put_field(out, b, 0x07, 4, z)
}

// Stores 05, 06 and 07.
pub fn put_head(out: &mut [u8], at: usize, count: u32, sequences: u32, start: i32) -> usize
    ensures { Putting out.old at (head_items count sequences start) result out.new }
{
    if stores::overruns(out.len(), at, sizes::head_size(sequences)) {
        return at;
    }
    store_head(out, at, count, sequences, start)
}
