// The maker: a frame of the canonical file, made of settings and samples.
//
// Promises, for any numbers, any samples and any buffer: `make_frame` answers 24 where a setting is outside the table of attributes or bits are wider than the
// sample, then 25 where the sample octets are not exactly sequences times G, then 23 where the frame is longer than the buffer, or with 01 01 00 before it than a file may be, with every octet
// of the buffer as it was; else the frame stands at the start of the buffer as the canonical file has it, its length is answered, and the octets past it are as they were.
// Read first: specs/Given.antt (settings as they are handed over), specs/Make.antt (the frame, and what is answered).
// Refusal comes first: one pass over the rows tests every setting and sums up the layout, so that the size is known before the first octet is stored.
// A second one stores the groups. Every octet is stored by a function that the writer stores it by: `groups::put_head`, `groups::put_group`,
// `frames::open_waveform` and `runs::copy`. No table of records is made.
#![tactic(auto)]

ghost use Rattle.std.specs.Prelude.{◌≡◌, map, ◌+◌, ◌≤◌, length};
ghost use Rattle.stores.specs.Storing.{Put};
ghost use Rattle.heads.specs.Answer.{refused_as, answer_of};
ghost use Rattle.standing.specs.Standing.{octets_limit};
ghost use Rattle.layout.specs.Frame.{reported};
ghost use Rattle.sizes.specs.Size.{frame_size};
ghost use Rattle.layout.specs.Measure.{groups_size};
ghost use Rattle.groups.specs.Group.{groups_octets};
ghost use Rattle.frames.specs.Parts.{frame_parts};
ghost use Rattle.maker.specs.Given.{channels_made};
ghost use Rattle.maker.specs.Rows.{RowsFit};
ghost use Rattle.maker.specs.Make.{making, frame_in_table, Made};

use heads::{Fault, Refusal};
use rows::Row;
use settings::Settings;
use standing::Standing;

mod rows;

// The octets of a file ahead of its first frame, 01 01 00.
const ORDER: usize = 3;

// Start pointer, sequences and channel count are in the table, and there are as many rows as channels.
fn frame_fits(start: i64, sequences: u64, channels: u64, numbers: usize, bits: usize) -> bool
    ensures { result ≡ frame_in_table start sequences channels numbers bits }
{
    if !framing::pointer_fits(start) {
        return false;
    }
    if octets::FOUR_OCTETS <= sequences {
        return false;
    }
    if channels < 1 {
        return false;
    }
    if (Settings::CHANNELS as u64) < channels {
        return false;
    }
    if numbers != channels as usize * Row::NUMBERS {
        return false;
    }
    bits == channels as usize * Row::BITS
}

// The groups of the channels of the first n rows.
fn put_rows(out: &mut [u8], at: usize, numbers: &[i64], bits: &[u64], n: usize) -> usize
    requires { RowsFit numbers.now bits.now n × (at + groups_size 0 (channels_made n numbers.now bits.now) ≤ length out.old) }
    ensures { Put out.old at (groups_octets 0 (map reported (channels_made n numbers.now bits.now))) result out.new }
{
    let mut next = at;
    for index in 0..n {
        let row = Row {
            numbers,
            bits,
            index,
        };
        next = groups::put_group(out, next, index as u8, row.settings());
    }
    next
}

// A frame: 05, 06, 07, the groups, 1E and the samples, as they stand.
fn store_frame(
    start: i32,
    sequences: u32,
    numbers: &[i64],
    bits: &[u64],
    n: usize,
    samples: &[u8],
    out: &mut [u8],
) -> usize
    requires rows_fit { RowsFit numbers.now bits.now n }
    requires samples_len_bound { (length samples.now ≤ octets_limit) × (frame_size sequences (groups_size 0 (channels_made n numbers.now bits.now)) (length samples.now) ≤ length out.old) }
    ensures { Put out.old 0 (frame_parts start sequences (channels_made n numbers.now bits.now) samples.now) result out.new }
{
    let a = groups::put_head(out, 0, n as u32, sequences, start);
    let b = put_rows(out, a, numbers, bits, n);
    let c = frames::open_waveform(out, b, samples.len() as u32);
    runs::copy(samples, 0, samples.len(), out, c)
}

// A refusal at no place of a file.
fn refused(fault: Fault) -> Result<usize, Refusal>
    ensures { answer_of result ≡ refused_as fault 0 }
{
    Err(Refusal { fault, place: 0 })
}

// Makes a frame of its start pointer, its sequences, the settings of its channels, a row for each, and its samples, big-endian and in file order, into
// the front of a buffer.
pub fn make_frame(
    start: i64,
    sequences: u64,
    channels: u64,
    numbers: &[i64],
    bits: &[u64],
    samples: &[u8],
    out: &mut [u8],
) -> Result<usize, Refusal>
    ensures { Made (making start sequences channels numbers.now bits.now samples.now) out.old (answer_of result) out.new }
{
    if !frame_fits(start, sequences, channels, numbers.len(), bits.len()) {
        return refused(Fault::SettingRange);
    }
    let n = channels as usize;
    let m = rows::measure(numbers, bits, n);
    let Some(l) = m else {
        return refused(Fault::SettingRange);
    };
    if samples.len() as u64 != sequences * l.octets {
        return refused(Fault::SamplesLength);
    }
    if Standing::OCTETS < samples.len() {
        return refused(Fault::NoRoom);
    }
    let size = sizes::frame_size(sequences as u32, l.groups as u32, samples.len() as u32) as usize;
    if Standing::OCTETS - ORDER < size {
        return refused(Fault::NoRoom);
    }
    if out.len() < size {
        return refused(Fault::NoRoom);
    }
    let stored = store_frame(
        start as i32,
        sequences as u32,
        numbers,
        bits,
        n,
        samples,
        out,
    );
    Ok(stored)
}
