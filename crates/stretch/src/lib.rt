// Stretches of a file: definitions and items that are stepped over, carried out in one go.
//
// A pass may take every item by itself. Where many in a row do nothing but change one record, it takes them as a stretch: no item, effect or
// change is handed from function to function. What does not belong to a stretch is left where it stands.
// Promises, for any octets and any cursor: `along` answers how far the stretch at a cursor goes and the record that it leaves.
// Read first: specs/Stretch.antt.
#![tactic(auto)]

ghost use Rattle.std.specs.Prelude.{◌≡◌, ◌≤◌, length};
ghost use Rattle.stretch.specs.Stretch.{stepped_over, run_of, stretch_of};

use definitions::Attribute;
use items::Cursor;
use settings::Settings;
use values::Bits;

// The settings that a stretch leaves, and where it ends.
#[derive(Clone, Copy)]
pub struct Stretch {
    pub settings: Settings,
    pub at: usize,
}

// The tags of other items that a stretch may hold.
#[tactic(auto, unfolding(crate::specs::Stretch::stepped_over))]
pub fn stepped_over(tag: u8) -> bool
    ensures { result ≡ stepped_over tag }
{
    match tag {
        0x00 => false,
        0x01 => false,
        0x05 => false,
        0x06 => false,
        0x07 => false,
        0x0E => false,
        0x1E => false,
        _ => tag / 32 % 2 == 0,
    }
}

// The same settings, put together from their parts: what lies between them is not copied, and a record is stored and read in the same pieces.
fn renewed(s: Settings) -> Settings
    ensures { result ≡ s }
{
    let interval = s.interval;
    let resolution = s.resolution;
    Settings {
        block: s.block,
        class: s.class,
        lead: s.lead,
        datatype: s.datatype,
        interval,
        resolution,
        offset: Bits {
            width: s.offset.width,
            bits: s.offset.bits,
        },
        null: Bits {
            width: s.null.width,
            bits: s.null.bits,
        },
    }
}

// The stretch at the front of u; `at` counts from there. The record is changed in place, one field at a time: each copy of it would make the
// next item wait.
fn run(u: &[u8], little: bool, base: Settings, held: Settings) -> Stretch
    ensures { (result ≡ run_of «little» base held u.now) × (result.at ≤ length u.now) }
{
    let mut settings = renewed(held);
    let mut at = 0usize;
    while at + 1 < u.len() {
        let tag = u[at];
        let n = u[at + 1] as usize;
        if 127 < n {
            break;
        }
        if u.len() - at - 2 < n {
            break;
        }
        let from = at + 2;
        let next = from + n;
        match definitions::attribute_of(tag) {
            Some(a) => {
                let v = &u[from..next];
                match a {
                    Attribute::Block => match definitions::block_read(v, little, base.block) {
                        Some(x) => settings.block = x,
                        None => break,
                    },
                    Attribute::Class => match definitions::code_read(v, little, base.class) {
                        Some(x) => settings.class = x,
                        None => break,
                    },
                    Attribute::Lead => match definitions::code_read(v, little, base.lead) {
                        Some(x) => settings.lead = x,
                        None => break,
                    },
                    Attribute::DataType => match definitions::type_read(v, base.datatype) {
                        Some(x) => settings.datatype = x,
                        None => break,
                    },
                    Attribute::Interval => match definitions::scale_read(
                        v,
                        little,
                        Settings::LAST_INTERVAL_UNIT,
                        base.interval,
                    ) {
                        Some(x) => settings.interval = x,
                        None => break,
                    },
                    Attribute::Resolution => match definitions::scale_read(
                        v,
                        little,
                        Settings::LAST_RESOLUTION_UNIT,
                        base.resolution,
                    ) {
                        Some(x) => settings.resolution = x,
                        None => break,
                    },
                    Attribute::Offset => match definitions::bits_read(v, little, base.offset) {
                        Some(x) => settings.offset = x,
                        None => break,
                    },
                    Attribute::Null => match definitions::bits_read(v, little, base.null) {
                        Some(x) => settings.null = x,
                        None => break,
                    },
                }
            }
            None => {
                if !stepped_over(tag) {
                    break;
                }
            }
        }
        at = next;
    }
    Stretch { at, settings }
}

// The stretch at a cursor of the file s: definitions are carried out in `held`, and a definition of length 0 goes back to what stands in
// `base`.
#[tactic(auto, unfolding(crate::specs::Stretch::stretch_of))]
pub fn along(s: &[u8], c: Cursor, little: bool, base: Settings, held: Settings) -> Stretch
    ensures { result ≡ stretch_of s.now c «little» base held }
{
    let at = c.at;
    let within = c.within;
    let taken = run(items::rest(s, at, within), little, base, held);
    let settings = taken.settings;
    Stretch {
        at: at + taken.at,
        settings,
    }
}
