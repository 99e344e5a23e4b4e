// Whole items of a piece of a file, taken at once.
//
// A file that arrives is read octet by octet (crate link). Where items lie whole in the octets at hand and lead on, they are taken item by item, and
// definitions and items that are stepped over in stretches (crate stretch).
// Promises, for any octets, any head of a walk and any words: `items` answers how many octets it took and where the walk stands behind them, with the
// words left so. That is where those octets lead one by one; they give nothing out, and behind none of them a call of the feed stops. It takes no
// item that is cut off, no frame, no refused item and no fault of form.
// Read first: crates link and taking, then specs/Ahead.antt.
#![tactic(auto)]

ghost use Rattle.std.specs.Prelude.{◌≡◌, List, true, ℕ, ◌+◌, ◌-◌, ◌≤◌, ◌<◌, length};
ghost use Rattle.items.specs.declared.Within.TheVariants.{Root};
ghost use Rattle.items.specs.Walk.{stands_in, is_inside};
ghost use Rattle.standing.specs.Standing.{octets_limit};
ghost use Rattle.walk.specs.Advance.{stand_of};
ghost use Rattle.link.specs.Link.{cut_at, group_at, within_after};
ghost use Rattle.ahead.specs.Ahead.{GoesAhead, Fits, reach_of, item_here, IsItem, IsHead, InGroup};

use effects::Effect;
use heads::{Fault, ItemHead};
use items::{Cursor, Item, Within};
use settings::Settings;
use standing::Standing;
use walk::Head;

// Where a walk stands behind items that were taken, the place that is kept there, and how many octets they took.
#[derive(Clone, Copy)]
pub struct Ahead {
    pub head: Head,
    pub around: u64,
    pub taken: usize,
}

// Nothing is taken.
fn none(h: Head, around: u64) -> Ahead
    ensures { result ≡ record { head = h; around = around; taken = 0 } }
{
    Ahead {
        head: h,
        around,
        taken: 0,
    }
}

// What is around the item at a cursor.
fn stands_in(c: Cursor) -> Within
    ensures { result ≡ stands_in c.at c.within }
{
    let within = c.within;
    items::stands_in(c.at, within)
}

// How many octets lie between two places.
fn left(at: usize, end: usize) -> usize
    ensures { result ≡ end - at }
{
    if at <= end { end - at } else { 0 }
}

// The octets at a place up to the end of the definite group around.
fn reach(u: &[u8], at: usize, within: Within) -> &[u8]
    ensures { result.now ≡ reach_of u.now at within }
{
    match within {
        Within::Root => u,
        Within::Definite { channel: _, end } => octets::part(u, 0, left(at, end)),
        Within::Open {
            channel: _,
            place: _,
        } => u,
    }
}

// The place that is kept behind an item that stood at a place in `within`, with the cursor there.
fn around_at(within: Within, place: usize, around: u64, c: Cursor) -> u64
    ensures { result ≡ group_at (stands_in c.at c.within) (cut_at within place around) }
{
    match stands_in(c) {
        Within::Root => 0,
        Within::Definite { channel: _, end: _ } => match within {
            Within::Root => place as u64,
            Within::Definite { channel: _, end: _ } => around,
            Within::Open {
                channel: _,
                place: _,
            } => place as u64,
        },
        Within::Open {
            channel: _,
            place: _,
        } => 0,
    }
}

// The item at a place.
fn item_here(within: Within, place: usize, tag: u8, start: usize, len: usize) -> Item
    ensures { result ≡ item_here within place tag start len }
{
    match within {
        Within::Root => Item::Plain {
            place,
            tag,
            start,
            len,
        },
        Within::Definite { channel, end: _ } => Item::Member {
            place,
            channel,
            tag,
            start,
            len,
        },
        Within::Open { channel, place: _ } => {
            if items::ends_open(tag, len) {
                return Item::Mark { place };
            }
            Item::Member {
                place,
                channel,
                tag,
                start,
                len,
            }
        }
    }
}

// What is around the next one.
fn within_after(within: Within, tag: u8, len: usize) -> Within
    ensures { result ≡ within_after within tag len }
{
    match within {
        Within::Root => Within::Root,
        Within::Definite { channel, end } => Within::Definite { channel, end },
        Within::Open { channel, place } => {
            if items::ends_open(tag, len) {
                return Within::Root;
            }
            Within::Open { channel, place }
        }
    }
}

// The item at the front of u, k octets long, with this effect, where it leads on.
fn carried(
    u: &[u8],
    h: Head,
    around: u64,
    t: &mut [u64],
    c: Cursor,
    k: usize,
    effect: Result<Effect, Fault>,
) -> Ahead
    requires { IsItem u.now (stand_of h t.old) around k c effect }
    ensures { GoesAhead u.now h around t.old result t.new }
{
    match effect {
        Err(_) => none(h, around),
        Ok(asked) => match asked {
            Effect::Frame { start: _, len: _ } => none(h, around),
            _ => {
                let place = h.cursor.at;
                let taken = taking::take(t, h, c, place, effect);
                let head = taken.head;
                Ahead {
                    head,
                    around: around_at(stands_in(h.cursor), place, around, c),
                    taken: k,
                }
            }
        },
    }
}

// The item with a value at the front of u.
fn valued(u: &[u8], h: Head, around: u64, t: &mut [u64], tag: u8, start: usize, len: usize) -> Ahead
    requires { IsHead u.now h (Ok (Some (ItemHead.Primitive tag start len))) }
    ensures { GoesAhead u.now h around t.old result t.new }
{
    if tag == 0x1E {
        return none(h, around);
    }
    if u.len() - start < len {
        return none(h, around);
    }
    let at = h.cursor.at;
    let within = stands_in(h.cursor);
    let effect = effects::item_effect(u, h.standing, item_here(within, at, tag, start, len));
    let c = Cursor {
        at: at + start + len,
        within: within_after(within, tag, len),
    };
    carried(u, h, around, t, c, start + len, effect)
}

// The item at the front of u, which ends with the definite group around or before.
fn item_in(u: &[u8], h: Head, around: u64, t: &mut [u64]) -> Ahead
    requires u_bound { h.cursor.at + length u.now ≤ octets_limit }
    requires fits { Fits (stands_in h.cursor.at h.cursor.within) (h.cursor.at + length u.now) }
    ensures { GoesAhead u.now h around t.old result t.new }
{
    let at = h.cursor.at;
    let inside = items::is_inside(stands_in(h.cursor));
    match heads::item_form(inside, u) {
        Ok(Some(ItemHead::Primitive { tag, start, len })) => {
            valued(u, h, around, t, tag, start, len)
        }
        Ok(
            Some(
                ItemHead::Definite {
                    channel,
                    start,
                    len,
                },
            ),
        ) => {
            // No file is that long.
            if Standing::OCTETS < len {
                return none(h, around);
            }
            let from = at + start;
            let end = from + len;
            let c = Cursor {
                at: from,
                within: Within::Definite { channel, end },
            };
            let effect = effects::item_effect(u, h.standing, Item::Group { place: at, channel });
            carried(u, h, around, t, c, start, effect)
        }
        Ok(Some(ItemHead::Open { channel, start })) => {
            let c = Cursor {
                at: at + start,
                within: Within::Open { channel, place: at },
            };
            let effect = effects::item_effect(u, h.standing, Item::Group { place: at, channel });
            carried(u, h, around, t, c, start, effect)
        }
        Ok(None) => none(h, around),
        Err(_) => none(h, around),
    }
}

// The item at the front of u.
fn single(u: &[u8], h: Head, around: u64, t: &mut [u64]) -> Ahead
    requires { h.cursor.at + length u.now ≤ octets_limit }
    ensures { GoesAhead u.now h around t.old result t.new }
{
    item_in(reach(u, h.cursor.at, stands_in(h.cursor)), h, around, t)
}

// The stretch outside groups at the front of u.
fn along_root(u: &[u8], h: Head, around: u64) -> Ahead
    requires u_bound { h.cursor.at + length u.now ≤ octets_limit }
    requires within_value { stands_in h.cursor.at h.cursor.within ≡ Root }
    ensures { (t : List ℕ) → GoesAhead u.now h around t result t }
{
    let st = h.standing;
    let start = Cursor {
        at: 0,
        within: Within::Root,
    };
    let base = Settings::default();
    let ahead = stretch::along(u, start, st.little, base, st.root);
    let k = ahead.at;
    if k == 0 {
        return none(h, around);
    }
    let root = ahead.settings;
    let passed = passed::over(octets::part(u, 0, k), h.dates, h.items);
    let dates = passed.dates;
    let cursor = Cursor {
        at: h.cursor.at + k,
        within: Within::Root,
    };
    let head = Head {
        cursor,
        standing: st.with_root(root),
        dates,
        items: passed.items,
        frames: h.frames,
    };
    Ahead {
        head,
        around: 0,
        taken: k,
    }
}

// The same in a group that is ignored, since no channel count stands: its items do nothing.
fn along_ignored(u: &[u8], h: Head, around: u64, within: Within) -> Ahead
    requires u_bound { h.cursor.at + length u.now ≤ octets_limit }
    requires fits { Fits (stands_in h.cursor.at h.cursor.within) (h.cursor.at + length u.now) }
    requires within_value { within ≡ stands_in h.cursor.at h.cursor.within }
    requires within_value_2 { is_inside within ≡ true }
    requires counted_value { h.standing.counted ≡ 0 }
    ensures { (t : List ℕ) → GoesAhead u.now h around t result t }
{
    let standing = h.standing;
    let dates = h.dates;
    let start = Cursor {
        at: 0,
        within: Within::Root,
    };
    let ahead = stretch::along(u, start, standing.little, standing.root, standing.root);
    let k = ahead.at;
    if k == 0 {
        return none(h, around);
    }
    let passed = passed::over(octets::part(u, 0, k), dates, h.items);
    let place = h.cursor.at;
    let cursor = Cursor {
        at: place + k,
        within,
    };
    let mark = around_at(within, place, around, cursor);
    let head = Head {
        cursor,
        standing,
        dates,
        items: passed.items,
        frames: h.frames,
    };
    Ahead {
        head,
        around: mark,
        taken: k,
    }
}

// The same in a group of a channel, whose record is stored once, where a definition changes it. Where tag 05 is not of a time before now, a record
// of now does not say what stands, and none is taken.
fn along_group(u: &[u8], h: Head, around: u64, t: &mut [u64], within: Within, channel: u32) -> Ahead
    requires u_bound { h.cursor.at + length u.now ≤ octets_limit }
    requires fits { Fits (stands_in h.cursor.at h.cursor.within) (h.cursor.at + length u.now) }
    requires within_value { within ≡ stands_in h.cursor.at h.cursor.within }
    requires in_group { InGroup within channel }
    ensures { GoesAhead u.now h around t.old result t.new }
{
    let st = h.standing;
    let dates = h.dates;
    if st.counted == 0 {
        return along_ignored(u, h, around, within);
    }
    if dates.now <= dates.cleared {
        return none(h, around);
    }
    let n = channel as usize;
    let start = Cursor {
        at: 0,
        within: Within::Root,
    };
    let stood = records::settled(t, n, st.root, dates);
    let ahead = stretch::along(u, start, st.little, st.root, stood);
    let k = ahead.at;
    if k == 0 {
        return none(h, around);
    }
    let settled = ahead.settings;
    let passed = passed::over(octets::part(u, 0, k), dates, h.items);
    let place = h.cursor.at;
    let cursor = Cursor {
        at: place + k,
        within,
    };
    let head = Head {
        cursor,
        standing: st,
        dates,
        items: passed.items,
        frames: h.frames,
    };
    let mark = around_at(within, place, around, cursor);
    if passed.defines {
        words::put(t, n, dates.note(settled));
    }
    Ahead {
        head,
        around: mark,
        taken: k,
    }
}

// The stretch at the front of u, where there may be one.
fn stretched(u: &[u8], h: Head, around: u64, t: &mut [u64]) -> Ahead
    requires { h.cursor.at + length u.now ≤ octets_limit }
    ensures { GoesAhead u.now h around t.old result t.new }
{
    if u.len() == 0 {
        return none(h, around);
    }
    if !stretch::stepped_over(u[0]) {
        return none(h, around);
    }
    let within = stands_in(h.cursor);
    let at = h.cursor.at;
    match within {
        Within::Root => along_root(u, h, around),
        Within::Definite { channel, end: _ } => {
            along_group(reach(u, at, within), h, around, t, within, channel)
        }
        Within::Open { channel, place: _ } => {
            along_group(reach(u, at, within), h, around, t, within, channel)
        }
    }
}

// A stretch and the item behind it, as far as there are such.
fn turn(u: &[u8], h: Head, around: u64, t: &mut [u64]) -> Ahead
    requires { h.cursor.at + length u.now ≤ octets_limit }
    ensures { GoesAhead u.now h around t.old result t.new }
{
    let first = stretched(u, h, around, t);
    let k = first.taken;
    let next = single(&u[k..], first.head, first.around, t);
    let head = next.head;
    Ahead {
        head,
        around: next.around,
        taken: k + next.taken,
    }
}

// Whole items at the front of u, which begins where the walk stands; t are the words of the channels' records.
pub fn items(u: &[u8], h: Head, around: u64, t: &mut [u64]) -> Ahead
    ensures { GoesAhead u.now h around t.old result t.new }
{
    let first = h.cursor.at;
    if Standing::OCTETS < first {
        return none(h, around);
    }
    if Standing::OCTETS - first < u.len() {
        return none(h, around);
    }
    let mut head = h;
    let mut mark = around;
    let mut taken = 0usize;
    while taken < u.len() {
        let next = turn(&u[taken..], head, mark, t);
        let behind = next.head;
        head = behind;
        mark = next.around;
        taken += next.taken;
        if next.taken == 0 {
            break;
        }
    }
    Ahead {
        head,
        around: mark,
        taken,
    }
}
