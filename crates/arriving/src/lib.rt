// One octet more of a file that arrives in pieces.
//
// A link's own numbers, its walk's head and the frame that is told go by value, the octets that it keeps beside them, and the channels' records stand in
// words that a caller lends.
// Promises, for any numbers, octets and words: `octet` does with one octet what the definition of the link does with it. A refusal that waits keeps the
// number by which it was noted, whether a fault has it or not.
// Read first: specs/Link.antt of crate link, then specs/Arriving.antt.
#![tactic(auto)]

ghost use Rattle.std.specs.Prelude.{◌≡◌, ◌+◌, ◌-◌, ◌^◌, ◌<◌, ◌≤◌, min, take, nat_lt};
ghost use Rattle.items.specs.Walk.{stands_in};
ghost use Rattle.standing.specs.Standing.{octets_limit};
ghost use Rattle.taking.specs.Takes.{turn_by};
ghost use Rattle.walk.specs.Advance.{on};
ghost use Rattle.link.specs.Link.{head, value, waveform, kept_limit, cut_at, group_at, lasts_in, condemned, stopped_at, turned_by, effected, item_at, within_after, done_item, valued, primitive_begins, group_begins, confined, seen_in, headed};
ghost use Rattle.held.specs.Words.{phase_of};
ghost use Rattle.rows.specs.Rows.{coming_at};
ghost use Rattle.arriving.specs.Arriving.{kept_of, in_stage, in_stand, marked_by, counted_by, further_by, untold_by, waved_stage, at_sample, waiting_by, Becomes, Moves, ComesNext, DecidedIn, Turns, TurnsOn, Near, Bounded, Seen, Takes, Steps};

use effects::Effect;
use heads::{Fault, ItemHead, Refusal};
use held::{Core, Held, Noted, Stage};
use items::{Cursor, Item, Within};
use rows::Spot;
use standing::Standing;
use taking::Taken;
use walk::{Head, Waveform};

// A link, besides the octets that it keeps and the channels' records.
#[derive(Clone, Copy)]
pub struct Link {
    pub core: Core,
    pub head: Head,
    pub frame: Waveform,
}

// A link, and the octets that it keeps, at the front.
#[derive(Clone, Copy)]
pub struct Arrived {
    pub link: Link,
    pub octets: [u8; Held::ROOM],
}

// The same link at another stage, with nothing kept.
fn in_stage(x: Link, stage: Stage) -> Link
    ensures { result ≡ in_stage stage x }
{
    let head = x.head;
    let frame = x.frame;
    Link {
        core: Core {
            count: x.core.count,
            around: x.core.around,
            held: 0,
            stage,
        },
        head,
        frame,
    }
}

// What is around the item at hand.
pub fn within_of(h: Head) -> Within
    ensures { result ≡ stands_in h.cursor.at h.cursor.within }
{
    let c = h.cursor;
    let stood = c.within;
    items::stands_in(c.at, stood)
}

// Where an end is 3 inside an item.
pub fn cut_at(within: Within, place: u64, around: u64) -> u64
    ensures { result ≡ cut_at within place around }
{
    match within {
        Within::Root => place,
        Within::Definite { channel: _, end: _ } => around,
        Within::Open {
            channel: _,
            place: _,
        } => place,
    }
}

// Where it is 3 between two items.
fn group_at(within: Within, around: u64) -> u64
    ensures { result ≡ group_at within around }
{
    match within {
        Within::Root => 0,
        Within::Definite { channel: _, end: _ } => around,
        Within::Open {
            channel: _,
            place: _,
        } => 0,
    }
}

// How many octets lie between two places.
fn between(at: u64, end: u64) -> u64
    ensures { result ≡ end - at }
{
    if at <= end { end - at } else { 0 }
}

// How many octets a refusal waits for.
fn lasts_in(within: Within, count: u64, left: u64) -> u64
    ensures { result ≡ lasts_in within count left }
{
    match within {
        Within::Root => left,
        Within::Definite { channel: _, end } => between(count, end as u64),
        Within::Open {
            channel: _,
            place: _,
        } => left,
    }
}

// A refusal that waits for so many octets.
fn waiting(x: Link, left: u64, r: Noted) -> Link
    ensures { result ≡ waiting_by left r x }
{
    if left == 0 {
        return in_stage(x, Stage::Decided(Err(r)));
    }
    in_stage(x, Stage::Waits { left, refusal: r })
}

// A refusal of an item with this around it, of which so many octets are still to come.
fn condemned(x: Link, within: Within, left: u64, r: Refusal) -> Link
    ensures { Becomes x result (condemned within left r) }
{
    waiting(x, lasts_in(within, x.core.count, left), Noted::of(r))
}

// From now on an end is 3 at the item at hand, or at the definite group around it.
fn marked(x: Link) -> Link
    ensures { result ≡ marked_by x }
{
    let head = x.head;
    let frame = x.frame;
    let c = head.cursor;
    let core = x.core;
    let stage = core.stage;
    Link {
        core: Core {
            count: x.core.count,
            around: cut_at(within_of(head), c.at as u64, x.core.around),
            held: x.core.held,
            stage,
        },
        head,
        frame,
    }
}

// The same link, its walk elsewhere.
fn in_stand(x: Link, head: Head) -> Link
    ensures { result ≡ in_stand head x }
{
    let core = x.core;
    let frame = x.frame;
    Link { core, head, frame }
}

// An item led on.
fn goes_on(x: Link, head: Head) -> Link
    ensures { Moves x head (λ y. turned_by 0 (on y)) result }
{
    let frame = x.frame;
    Link {
        core: Core {
            count: x.core.count,
            around: group_at(within_of(head), x.core.around),
            held: 0,
            stage: Stage::Head,
        },
        head,
        frame,
    }
}

// In a waveform of which so many octets are still to come.
fn waved(left: u64) -> Stage
    ensures { result ≡ waved_stage left }
{
    if left == 0 {
        return Stage::Head;
    }
    Stage::Waveform {
        left,
        sequence: 0,
        channel: 0,
        index: 0,
    }
}

// Whether so many octets more pass the limit.
fn passes(count: u64, left: u64) -> bool
    ensures { result ≡ nat_lt octets_limit (count + left) }
{
    let limit = Standing::OCTETS as u64;
    if limit < count {
        return true;
    }
    limit - count < left
}

// A frame whose waveform has so many octets: it is told, unless it ends past the limit.
fn framed(x: Link, left: u64, head: Head, frame: Waveform) -> Link
    ensures { Moves x head (stopped_at left (Ok (Some frame))) result }
{
    if passes(x.core.count, left) {
        let r = Refusal {
            fault: Fault::LongFile,
            place: 0,
        };
        return waiting(in_stand(x, head), left, Noted::of(r));
    }
    Link {
        core: Core {
            count: x.core.count,
            around: x.core.around,
            held: 0,
            stage: waved(left),
        },
        head,
        frame,
    }
}

// What became of an item of which so many octets are still to come.
fn turned(x: Link, left: u64, k: Taken) -> Link
    ensures { Moves x k.head (λ y. turned_by left (turn_by k.went y)) result }
{
    let head = k.head;
    match k.went {
        Ok(None) => goes_on(x, head),
        Ok(Some(v)) => framed(x, left, head, v),
        Err(r) => condemned(in_stand(x, head), within_of(x.head), left, r),
    }
}

// An item with this effect, behind which the cursor stands, of which so many octets are still to come.
fn effected(
    t: &mut [u64],
    x: Link,
    left: u64,
    cursor: Cursor,
    effect: Result<Effect, Fault>,
) -> Link
    ensures { Turns x t.old (effected left cursor effect) result t.new }
{
    let m = marked(x);
    let head = m.head;
    let c = head.cursor;
    let k = taking::take(t, head, cursor, c.at, effect);
    turned(m, left, k)
}

// The item at hand, its value told by its kept octets.
fn item_at(within: Within, at: usize, tag: u8, len: usize) -> Item
    ensures { result ≡ item_at within at tag len }
{
    match within {
        Within::Root => Item::Plain {
            place: at,
            tag,
            start: 0,
            len,
        },
        Within::Definite { channel, end: _ } => Item::Member {
            place: at,
            channel,
            tag,
            start: 0,
            len,
        },
        Within::Open { channel, place: _ } => {
            if items::ends_open(tag, len) {
                return Item::Mark { place: at };
            }
            Item::Member {
                place: at,
                channel,
                tag,
                start: 0,
                len,
            }
        }
    }
}

// What is around the next one.
fn within_after(within: Within, tag: u8, len: usize) -> Within
    ensures { result ≡ within_after within tag len }
{
    match within {
        Within::Root => Within::Root,
        Within::Definite { channel, end } => Within::Definite { channel, end },
        Within::Open { channel, place } => {
            if items::ends_open(tag, len) {
                return Within::Root;
            }
            Within::Open { channel, place }
        }
    }
}

// The last octet of a value has come, of which these octets are kept.
fn done_item(t: &mut [u64], x: Link, tag: u8, v: &[u8]) -> Link
    ensures { Turns x t.old (done_item tag v.now) result t.new }
{
    let head = x.head;
    let c = head.cursor;
    let within = within_of(head);
    let item = item_at(within, c.at, tag, v.len());
    let effect = effects::item_effect(v, head.standing, item);
    let cursor = Cursor {
        at: x.core.count as usize,
        within: within_after(within, tag, v.len()),
    };
    effected(t, x, 0, cursor, effect)
}

// A value of which so many octets are still to come, and of those that have come the first n octets of p are kept.
fn valued(t: &mut [u64], x: Link, tag: u8, left: u64, p: [u8; Held::ROOM], n: usize) -> Link
    requires { n ≤ kept_limit }
    ensures { TurnsOn x t.old (valued tag left (take n p)) result p t.new }
{
    if left == 0 {
        return done_item(t, x, tag, octets::part(&p, 0, n));
    }
    let head = x.head;
    let frame = x.frame;
    Link {
        core: Core {
            count: x.core.count,
            around: x.core.around,
            held: n,
            stage: Stage::Value { tag, left },
        },
        head,
        frame,
    }
}

// The last octet of an item's head has come.
fn primitive_begins(t: &mut [u64], x: Link, tag: u8, len: usize, p: [u8; Held::ROOM]) -> Link
    requires { Near x len }
    ensures { TurnsOn x t.old (primitive_begins tag len) result p t.new }
{
    let at = x.core.count as usize;
    if tag == 0x1E {
        let cursor = Cursor {
            at: at + len,
            within: Within::Root,
        };
        return effected(
            t,
            x,
            len as u64,
            cursor,
            Ok(Effect::Frame { start: at, len }),
        );
    }
    valued(t, x, tag, len as u64, p, 0)
}

// The last octet of a group's head has come, behind which the walk stands in the group.
fn group_begins(t: &mut [u64], x: Link, left: u64, channel: u32, within: Within) -> Link
    ensures { Turns x t.old (group_begins left channel within) result t.new }
{
    let head = x.head;
    let c = head.cursor;
    let item = Item::Group {
        place: c.at,
        channel,
    };
    let none = [0u8; 1];
    let effect = effects::item_effect(&none, head.standing, item);
    let cursor = Cursor {
        at: x.core.count as usize,
        within,
    };
    effected(t, x, left, cursor, effect)
}

// In a definite group of which so many octets are still to come: 3 where the head or the value runs past it.
fn confined(left: u64, form: Result<Option<ItemHead>, Fault>) -> Result<Option<ItemHead>, Fault>
    ensures { result ≡ confined left form }
{
    match form? {
        None => {
            if left == 0 {
                return Err(Fault::PastEnd);
            }
            Ok(None)
        }
        Some(ItemHead::Primitive { tag, start, len }) => {
            if left < len as u64 {
                return Err(Fault::PastEnd);
            }
            Ok(Some(ItemHead::Primitive { tag, start, len }))
        }
        Some(
            ItemHead::Definite {
                channel,
                start,
                len,
            },
        ) => Ok(Some(ItemHead::Definite {
            channel,
            start,
            len,
        })),
        Some(ItemHead::Open { channel, start }) => Ok(Some(ItemHead::Open { channel, start })),
    }
}

// What the octets of a head say, where they have come to.
fn seen_in(
    within: Within,
    count: u64,
    form: Result<Option<ItemHead>, Fault>,
) -> Result<Option<ItemHead>, Fault>
    ensures { result ≡ seen_in within count form }
{
    match within {
        Within::Root => form,
        Within::Definite { channel: _, end } => confined(between(count, end as u64), form),
        Within::Open {
            channel: _,
            place: _,
        } => form,
    }
}

// The same, by the octets.
fn seen(within: Within, count: u64, u: &[u8]) -> Result<Option<ItemHead>, Fault>
    ensures { Seen within count u.now result }
{
    seen_in(within, count, heads::item_form(items::is_inside(within), u))
}

// A head of which n octets have come says this.
fn headed(
    t: &mut [u64],
    x: Link,
    p: [u8; Held::ROOM],
    n: usize,
    form: Result<Option<ItemHead>, Fault>,
) -> Link
    requires { Bounded x n form }
    ensures { TurnsOn x t.old (headed (take n p) form) result p t.new }
{
    let head = x.head;
    let c = head.cursor;
    let count = x.core.count as usize;
    match form {
        Ok(None) => {
            let frame = x.frame;
            Link {
                core: Core {
                    count: x.core.count,
                    around: x.core.around,
                    held: n,
                    stage: Stage::Head,
                },
                head,
                frame,
            }
        }
        Err(fault) => condemned(
            marked(x),
            within_of(head),
            0,
            Refusal { fault, place: c.at },
        ),
        Ok(Some(ItemHead::Primitive { tag, start: _, len })) => {
            primitive_begins(t, x, tag, len, p)
        }
        Ok(
            Some(
                ItemHead::Definite {
                    channel,
                    start: _,
                    len,
                },
            ),
        ) => group_begins(
            t,
            x,
            len as u64,
            channel,
            Within::Definite {
                channel,
                end: count + len,
            },
        ),
        Ok(Some(ItemHead::Open { channel, start: _ })) => group_begins(
            t,
            x,
            0,
            channel,
            Within::Open {
                channel,
                place: c.at,
            },
        ),
    }
}

// No more octets are kept than a value needs.
fn at_most_kept(n: usize) -> usize
    ensures { result ≡ min n kept_limit }
{
    if n < Held::KEPT { n } else { Held::KEPT }
}

// One octet fewer is to come.
fn less(left: u64) -> u64
    ensures { result ≡ left - 1 }
{
    if left == 0 { 0 } else { left - 1 }
}

// One octet more has come.
fn counted(x: Link) -> Link
    requires { x.core.count < octets_limit }
    ensures { result ≡ counted_by x }
{
    let head = x.head;
    let frame = x.frame;
    let core = x.core;
    let stage = core.stage;
    Link {
        core: Core {
            count: x.core.count + 1,
            around: x.core.around,
            held: x.core.held,
            stage,
        },
        head,
        frame,
    }
}

// No frame is told any more.
fn untold(x: Link) -> Link
    ensures { result ≡ untold_by x }
{
    let core = x.core;
    let head = x.head;
    let frame = walking::no_waveform();
    Link { core, head, frame }
}

// An octet of a head, which is counted.
fn in_head(t: &mut [u64], x: Link, p: [u8; Held::ROOM], b: u8) -> Arrived
    requires { x.core.count ≤ octets_limit }
    ensures { Takes x p t.old b (head (kept_of x p)) Stage.Head result t.new }
{
    let n = at_most_kept(x.core.held);
    let mut q = p;
    q[n] = b;
    let y = untold(x);
    let form = seen(within_of(y.head), y.core.count, octets::part(&q, 0, n + 1));
    let link = headed(t, y, q, n + 1, form);
    Arrived { link, octets: q }
}

// An octet of a value, which is counted.
fn in_value(t: &mut [u64], x: Link, p: [u8; Held::ROOM], b: u8, tag: u8, left: u64) -> Arrived
    ensures { Takes x p t.old b (value tag left (kept_of x p)) (Stage.Value tag left) result t.new }
{
    let n = at_most_kept(x.core.held);
    let mut q = p;
    q[n] = b;
    let link = valued(t, x, tag, less(left), q, at_most_kept(n + 1));
    Arrived { link, octets: q }
}

// So many octets more have come, of which so many are kept, at a stage. The count starts again at 0 behind 2^64 - 1, which no file leads to.
pub fn further(x: Link, m: usize, held: usize, stage: Stage) -> Link
    ensures { result ≡ further_by m held stage x }
{
    let head = x.head;
    let frame = x.frame;
    Link {
        core: Core {
            count: std::num::wrapping_add_u64(x.core.count, m as u64),
            around: x.core.around,
            held,
            stage,
        },
        head,
        frame,
    }
}

// In a waveform of which so many octets are still to come, at the sample at hand, of which `held` octets have come.
pub fn at_sample(x: Link, left: u64, at: Spot, held: usize) -> Link
    ensures { result ≡ at_sample left at held x }
{
    if left == 0 {
        return in_stage(x, Stage::Head);
    }
    let head = x.head;
    let frame = x.frame;
    Link {
        core: Core {
            count: x.core.count,
            around: x.core.around,
            held,
            stage: Stage::Waveform {
                left,
                sequence: at.sequence,
                channel: at.channel,
                index: at.index,
            },
        },
        head,
        frame,
    }
}

// The sample behind one of the frame's: of a block, then of the next channel, then of the next sequence.
fn next_spot(block: u32, channels: u32, sequences: u32, at: Spot) -> Spot
    requires { at.sequence < sequences }
    ensures { ComesNext block channels at result }
{
    if at.index as u64 + 1 < block as u64 {
        return Spot {
            sequence: at.sequence,
            channel: at.channel,
            index: at.index + 1,
        };
    }
    if at.channel as u64 + 1 < channels as u64 {
        return Spot {
            sequence: at.sequence,
            channel: at.channel + 1,
            index: 0,
        };
    }
    Spot {
        sequence: at.sequence + 1,
        channel: 0,
        index: 0,
    }
}

// An octet of a waveform, which is counted.
fn in_waveform(t: &[u64], x: Link, p: [u8; Held::ROOM], b: u8, left: u64, at: Spot) -> Arrived
    ensures { Takes x p t.now b (waveform left (coming_at at (kept_of x p))) (Stage.Waveform left at.sequence at.channel at.index) result t.now }
{
    let n = at_most_kept(x.core.held);
    let mut q = p;
    q[n] = b;
    let rest = less(left);
    if x.frame.sequences <= at.sequence {
        return Arrived {
            link: at_sample(x, rest, at, n),
            octets: p,
        };
    }
    let c = words::held(t, at.channel as usize);
    if n + 1 < values::width(c.datatype) {
        return Arrived {
            link: at_sample(x, rest, at, n + 1),
            octets: q,
        };
    }
    Arrived {
        link: at_sample(
            x,
            rest,
            next_spot(c.block, x.frame.channels, x.frame.sequences, at),
            0,
        ),
        octets: q,
    }
}

pub fn is_decided(stage: Stage) -> bool
    ensures { DecidedIn stage result }
{
    match stage {
        Stage::Head => false,
        Stage::Value { tag: _, left: _ } => false,
        Stage::Waveform {
            left: _,
            sequence: _,
            channel: _,
            index: _,
        } => false,
        Stage::Waits {
            left: _,
            refusal: _,
        } => false,
        Stage::Decided(_) => true,
    }
}

// An octet that is taken.
fn taken(t: &mut [u64], x: Link, p: [u8; Held::ROOM], b: u8) -> Arrived
    requires { x.core.count ≤ octets_limit }
    ensures { Takes x p t.old b (phase_of x.core.stage (kept_of x p)) x.core.stage result t.new }
{
    let core = x.core;
    let stage = core.stage;
    match stage {
        Stage::Head => in_head(t, x, p, b),
        Stage::Value { tag, left } => in_value(t, x, p, b, tag, left),
        Stage::Waveform {
            left,
            sequence,
            channel,
            index,
        } => in_waveform(
            t,
            x,
            p,
            b,
            left,
            Spot {
                sequence,
                channel,
                index,
            },
        ),
        Stage::Waits { left, refusal } => Arrived {
            link: waiting(x, less(left), refusal),
            octets: p,
        },
        Stage::Decided(_) => Arrived { link: x, octets: p },
    }
}

// One octet more.
pub fn octet(t: &mut [u64], x: Link, p: [u8; Held::ROOM], b: u8) -> Arrived
    ensures { Steps x p t.old b result t.new }
{
    let core = x.core;
    let stage = core.stage;
    if is_decided(stage) {
        return Arrived { link: x, octets: p };
    }
    if Standing::OCTETS as u64 <= x.core.count {
        let r = Noted::of(Refusal {
            fault: Fault::LongFile,
            place: 0,
        });
        return Arrived {
            link: in_stage(x, Stage::Decided(Err(r))),
            octets: p,
        };
    }
    taken(t, counted(x), p, b)
}
