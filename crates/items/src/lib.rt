// The walk from item to item of a file.
//
// Promises, for any octets at all: `next_item` answers the item at a cursor and the cursor behind it, the end of the file, or
// the first fault of form (refusals 1 to 5 and 10 of document 01) with its place. What a tag means is not looked at here.
// Read first: specs/Head.antt of `heads` (one item), then specs/Walk.antt (all of them).
#![tactic(auto)]

ghost use Rattle.std.specs.Prelude.{◌≡◌, ◌+◌, ◌-◌, ◌^◌, ◌<◌};
ghost use Rattle.items.specs.Walk.{cursor, stands_in, is_inside, extent, ends_open, ended, item_of, next_of};

use heads::{Fault, ItemHead, Refusal};

// Outside a group, in a definite group that ends before `end`, or in an open group whose tag stands at `place`.
#[derive(Clone, Copy)]
pub enum Within {
    Root,
    Definite { channel: u32, end: usize },
    Open { channel: u32, place: usize },
}

// Where the walk stands: before the octet at `at`.
#[derive(Clone, Copy)]
pub struct Cursor {
    pub at: usize,
    pub within: Within,
}

// An item. `place` is its tag's, and its value is `len` octets from `start` on. A group's contents follow as items of their own;
// a mark ends an open group.
#[derive(Clone, Copy)]
pub enum Item {
    Plain {
        place: usize,
        tag: u8,
        start: usize,
        len: usize,
    },
    Group {
        place: usize,
        channel: u32,
    },
    Member {
        place: usize,
        channel: u32,
        tag: u8,
        start: usize,
        len: usize,
    },
    Mark {
        place: usize,
    },
}

impl Cursor {
    // Before the first octet of a file.
    pub fn first() -> Cursor
        ensures { result ≡ cursor 0 Within.Root }
    {
        Cursor {
            at: 0,
            within: Within::Root,
        }
    }

    // The same cursor, put together from its parts. A pass that keeps it so need not wait, as a copy of the whole must, until
    // parts that were just stored can be read together.
    pub fn renewed(self) -> Cursor
        ensures { result ≡ self }
    {
        let at = self.at;
        let within = self.within;
        match within {
            Within::Root => Cursor {
                at,
                within: Within::Root,
            },
            Within::Definite { channel, end } => Cursor {
                at,
                within: Within::Definite { channel, end },
            },
            Within::Open { channel, place } => Cursor {
                at,
                within: Within::Open { channel, place },
            },
        }
    }
}

// A definite group is left at its end.
pub fn stands_in(at: usize, within: Within) -> Within
    ensures { result ≡ stands_in at within }
{
    match within {
        Within::Root => Within::Root,
        Within::Definite { channel, end } => {
            if at < end {
                Within::Definite { channel, end }
            } else {
                Within::Root
            }
        }
        Within::Open { channel, place } => Within::Open { channel, place },
    }
}

pub fn is_inside(within: Within) -> bool
    ensures { result ≡ is_inside within }
{
    match within {
        Within::Root => false,
        Within::Definite { channel: _, end: _ } => true,
        Within::Open {
            channel: _,
            place: _,
        } => true,
    }
}

// How many octets lie between two places.
fn left(at: usize, end: usize) -> usize
    ensures { result ≡ end - at }
{
    if at <= end { end - at } else { 0 }
}

// The octets up to the end of the file or of the definite group around.
pub fn rest(s: &[u8], at: usize, within: Within) -> &[u8]
    ensures { result.now ≡ extent s.now at within }
{
    match within {
        Within::Root => octets::part(s, at, s.len()),
        Within::Definite { channel: _, end } => octets::part(s, at, left(at, end)),
        Within::Open {
            channel: _,
            place: _,
        } => octets::part(s, at, s.len()),
    }
}

fn end_of(within: Within) -> Result<Option<(Item, Cursor)>, Refusal>
    ensures { result ≡ ended within }
{
    match within {
        Within::Root => Ok(None),
        Within::Definite { channel: _, end: _ } => Ok(None),
        Within::Open { channel: _, place } => Err(Refusal {
            fault: Fault::UnendedGroup,
            place,
        }),
    }
}

// An item 00 with length 0 ends an open group.
pub fn ends_open(tag: u8, len: usize) -> bool
    ensures { result ≡ ends_open tag len }
{
    tag == 0 && len == 0
}

// A primitive item, its value `len` octets from `start` on.
fn primitive_item(
    at: usize,
    within: Within,
    tag: u8,
    start: usize,
    len: usize,
) -> Result<Option<(Item, Cursor)>, Refusal>
    requires { at + start + len < 2 ^ 64 }
    ensures { result ≡ item_of at within (Ok (ItemHead.Primitive tag start len)) }
{
    let from = at + start;
    let next = from + len;
    match within {
        Within::Root => {
            let item = Item::Plain {
                place: at,
                tag,
                start: from,
                len,
            };
            let behind = Cursor {
                at: next,
                within: Within::Root,
            };
            Ok(Some((item, behind)))
        }
        Within::Definite { channel, end } => {
            let item = Item::Member {
                place: at,
                channel,
                tag,
                start: from,
                len,
            };
            let behind = Cursor {
                at: next,
                within: Within::Definite { channel, end },
            };
            Ok(Some((item, behind)))
        }
        Within::Open { channel, place } => {
            if ends_open(tag, len) {
                let behind = Cursor {
                    at: next,
                    within: Within::Root,
                };
                return Ok(Some((Item::Mark { place: at }, behind)));
            }
            let item = Item::Member {
                place: at,
                channel,
                tag,
                start: from,
                len,
            };
            let behind = Cursor {
                at: next,
                within: Within::Open { channel, place },
            };
            Ok(Some((item, behind)))
        }
    }
}

// The item at a cursor and the cursor behind it, none at the end, or the first fault of form.
pub fn next_item(s: &[u8], c: Cursor) -> Result<Option<(Item, Cursor)>, Refusal>
    ensures { result ≡ next_of s.now c }
{
    let at = c.at;
    let stood = c.within;
    let within = stands_in(at, stood);
    let u = rest(s, at, within);
    if u.len() == 0 {
        return end_of(within);
    }
    match heads::item_head(is_inside(within), u) {
        Err(fault) => Err(Refusal { fault, place: at }),
        Ok(ItemHead::Primitive { tag, start, len }) => primitive_item(at, within, tag, start, len),
        Ok(
            ItemHead::Definite {
                channel,
                start,
                len,
            },
        ) => {
            let behind = Cursor {
                at: at + start,
                within: Within::Definite {
                    channel,
                    end: at + start + len,
                },
            };
            Ok(Some((Item::Group { place: at, channel }, behind)))
        }
        Ok(ItemHead::Open { channel, start }) => {
            let behind = Cursor {
                at: at + start,
                within: Within::Open { channel, place: at },
            };
            Ok(Some((Item::Group { place: at, channel }, behind)))
        }
    }
}
