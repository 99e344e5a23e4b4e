// The verdict on a file: its frames or its refusal, by its items in file order.
//
// This crate has the definitions that every reader and writer of a file is measured by, and their laws. Its code is small: `place_of` is the place of an
// item's tag.
// Read first: specs/Verdict.antt (the file), then specs/Reached.antt (where its items lead).
#![tactic(auto)]

ghost use Rattle.std.specs.Prelude.{◌≡◌};
ghost use Rattle.verdict.specs.Verdict.{place_at};

use heads::Refusal;
use items::Item;

// The place of an item's tag.
pub fn place_of(item: Item) -> usize
    ensures { result ≡ place_at item }
{
    match item {
        Item::Plain {
            place,
            tag: _,
            start: _,
            len: _,
        } => place,
        Item::Group { place, channel: _ } => place,
        Item::Member {
            place,
            channel: _,
            tag: _,
            start: _,
            len: _,
        } => place,
        Item::Mark { place } => place,
    }
}
