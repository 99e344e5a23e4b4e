// What a stretch counts: the times of its definitions and its items, by its tags and lengths alone.
//
// A walk that takes definitions and items that are stepped over in one go (crate `stretch`) goes over their octets once more for what each item
// by itself would have counted.
// Promises, for any octets, any times and any number: `over` answers the times where each definition among the items is the root's, how many items were
// read then, and whether there is a definition among them.
// Read first: specs/Passed.antt.
#![tactic(auto)]

ghost use Rattle.std.specs.Prelude.{◌≡◌};
ghost use Rattle.settings.specs.Settings.{default_settings};
ghost use Rattle.definitions.specs.Define.{standing_in};
ghost use Rattle.dated.specs.Dated.{timed};
ghost use Rattle.passed.specs.Passed.{passed_from, passed_over};

use dated::{Dates, Times};
use definitions::Attribute;

// What a stretch counts: the times of its definitions, where they are the root's, its items, and whether it has a definition.
#[derive(Clone, Copy)]
pub struct Passed {
    pub dates: Dates,
    pub items: u64,
    pub defines: bool,
}

// The times, where the root defines an attribute now.
fn timed(t: Times, a: Attribute, now: u32) -> Times
    ensures { result ≡ timed (standing_in a default_settings) now t }
{
    let mut u = t;
    match a {
        Attribute::Block => {
            u.block = now;
        }
        Attribute::Class => {
            u.class = now;
        }
        Attribute::Lead => {
            u.lead = now;
        }
        Attribute::DataType => {
            u.datatype = now;
        }
        Attribute::Interval => {
            u.interval = now;
        }
        Attribute::Resolution => {
            u.resolution = now;
        }
        Attribute::Offset => {
            u.offset = now;
        }
        Attribute::Null => {
            u.null = now;
        }
    }
    u
}

// What the items of octets count, each with a length of one octet.
#[tactic(auto, using(crate::proofs::Laws::passed_item_lem, crate::proofs::Laws::passed_last, crate::proofs::Laws::passed_short, crate::proofs::Laws::item_defines, crate::proofs::Laws::item_other))]
pub fn over(u: &[u8], dates: Dates, before: u64) -> Passed
    ensures { result ≡ passed_over u.now (passed_from dates before) }
{
    let mut times = dates.times;
    let mut now = dates.now;
    let mut items = before;
    let mut defines = false;
    let mut at = 0usize;
    while at + 1 < u.len() {
        match definitions::attribute_of(u[at]) {
            Some(a) => {
                times = timed(times, a, now);
                now = std::num::wrapping_add_u32(now, 1);
                defines = true;
            }
            None => {}
        }
        items = std::num::wrapping_add_u64(items, 1);
        let n = u[at + 1] as usize;
        if u.len() - at - 2 < n {
            break;
        }
        at = at + 2 + n;
    }
    Passed {
        dates: Dates {
            times,
            cleared: dates.cleared,
            now,
        },
        items,
        defines,
    }
}
