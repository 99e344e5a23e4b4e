// The records of channels, kept in words that a caller lends: nothing is copied where a walk goes from frame to frame.
//
// How one record stands in words is crate `words`; here is what is done with all records of a frame.
// Promises, for any words: `clear` sends all channels back to the root settings. `settled` answers what stands for a record's channel, `at_most` how many of so many channels have records,
// and `layout_in` the layout that their records give. `refresh` brings the records of so many channels up to date, keeps the octets below each, and answers the layout.
// Words of no record's numbers stay as they are, but for those octets.
// Read first: specs/Records.antt, and specs/Words.antt of crate `words`.
#![tactic(auto)]

ghost use Rattle.std.specs.Prelude.{◌≡◌, map, ◌+◌, ◌*◌, ◌<◌, ◌≤◌, min, length, get_or, set, take, leb};
ghost use Rattle.octets.specs.Pick.{pick};
ghost use Rattle.octets.specs.Number.{low_of};
ghost use Rattle.settings.specs.Settings.{channel_limit};
ghost use Rattle.dated.specs.Dated.{zero_dated, settled_at, up_to_date};
ghost use Rattle.words.specs.Words.{record_words, record_numbers, time_word, below_word, record_at, records_held, records_in, held_in, Holding};
ghost use Rattle.layout.specs.Measure.{layout_of, More};
ghost use Rattle.records.specs.Records.{outdated, settings_by, since_by, Refreshed, Overtaken};

use dated::{Dates, Times};
use layout::Layout;
use settings::Settings;
use words::Records;

// All records sent back to the time before the first item.
pub fn clear(t: &mut [u64])
    ensures { Holding t.old (map outdated (records_in t.old)) t.new }
{
    let n = t.len() / Records::WORDS;
    for k in 0..n {
        t[k * Records::WORDS + Records::TIME] = 0;
    }
}

// What stands for a record's channel now.
pub fn settled(t: &[u64], k: usize, root: Settings, dates: Dates) -> Settings
    ensures { result ≡ settled_at root dates (get_or (records_in t.now) k zero_dated) }
{
    dated::settle(root, dates, words::get(t, k))
}

// No more channels than a frame may have, and than there are records.
pub fn at_most(t: &[u64], count: usize) -> usize
    ensures { result ≡ min (min count channel_limit) (length (records_in t.now)) }
{
    Settings::at_most(count).min(t.len() / Records::WORDS)
}

// The layout of the first `count` channels by what their records hold, as far as there are records.
pub fn layout_in(t: &[u64], count: usize) -> Layout
    ensures { result ≡ layout_of 0 (take (min count channel_limit) (held_in t.now)) }
{
    let n = at_most(t, count);
    let mut l = Layout::none();
    for i in 0..n {
        l = l.more(i, 0, words::held(t, i));
    }
    l
}

// When the root last defined the attribute of each number; the record's own time is always behind.
fn since_of(t: Times) -> [u32; Records::NUMBERS]
    ensures { result ≡ since_by t }
{
    [
        t.block,
        t.class,
        t.lead,
        t.datatype,
        t.interval,
        t.interval,
        t.interval,
        t.resolution,
        t.resolution,
        t.resolution,
        t.offset,
        t.offset,
        t.null,
        t.null,
        u32::MAX,
    ]
}

// A word stored, or none.
fn store_if(t: &mut [u64], i: usize, yes: bool, x: u64)
    requires { i < length t.old }
    ensures { t.new ≡ pick «yes» (set t.old i x) t.old }
{
    if yes {
        t[i] = x;
    }
}

// Stores those of a record's words from place i on whose attribute was defined at the time `from` or later.
fn overtake(
    t: &mut [u64],
    i: usize,
    from: u32,
    w: &[u64; Records::NUMBERS],
    since: &[u32; Records::NUMBERS],
)
    requires { i + record_numbers ≤ length t.old }
    ensures { Overtaken t.old i w.now since.now from record_numbers t.new }
{
    for a in 0..Records::NUMBERS {
        store_if(t, i + a, from <= since[a], w[a]);
    }
}

// The time from which on a record is behind: the first one of all, where tag 05 came since.
fn behind_from(at: u32, cleared: u32) -> u32
    ensures { result ≡ pick (leb at cleared) 0 at }
{
    if at <= cleared { 0 } else { at }
}

// The time of the record at place i.
fn time(t: &[u64], i: usize) -> u32
    requires { i + record_numbers ≤ length t.now }
    ensures { result ≡ (record_at t.now i).at }
{
    digits::lowest(t[i + Records::TIME], 4) as u32
}

// Brings a record up to date, by the words of the root settings of now. Only what the root has defined since is stored.
fn renew(
    t: &mut [u64],
    k: usize,
    dates: Dates,
    w: &[u64; Records::NUMBERS],
    since: &[u32; Records::NUMBERS],
)
    requires k_bound { k < records_held t.old }
    requires time_word_value { low_of 4 (get_or w.now time_word 0) ≡ dates.now }
    requires since_value { since.now ≡ since_by dates.times }
    ensures { Holding t.old (set (records_in t.old) k (up_to_date (settings_by w.now) dates (get_or (records_in t.old) k zero_dated))) t.new }
{
    let i = k * Records::WORDS;
    let at = time(t, i);
    if dates.cleared < at && at == dates.now {
        return;
    }
    overtake(t, i, behind_from(at, dates.cleared), w, since);
}

// Takes a record's channel to the layout of those before it, and keeps the octets below it with the record.
fn lay_next(t: &mut [u64], k: usize, l: Layout) -> Layout
    requires { k < records_held t.old }
    ensures t_after { t.new ≡ set t.old (k * record_words + below_word) l.octets }
    ensures more { More k 0 (get_or (records_in t.old) k zero_dated).settings l result }
{
    let c = words::held(t, k);
    t[k * Records::WORDS + Records::BELOW] = l.octets;
    l.more(k, 0, c)
}

// Brings the first n records up to date, by the words of the root settings of now, with each the octets below its channel. Answers their channels'
// layout.
fn renew_all(
    t: &mut [u64],
    n: usize,
    dates: Dates,
    w: &[u64; Records::NUMBERS],
    since: &[u32; Records::NUMBERS],
) -> Layout
    requires n_le_channel_limit { (n ≤ channel_limit) × (n ≤ length (records_in t.old)) }
    requires time_word_value { low_of 4 (get_or w.now time_word 0) ≡ dates.now }
    requires since_value { since.now ≡ since_by dates.times }
    ensures { Refreshed t.old n (settings_by w.now) dates result t.new }
{
    let mut l = Layout::none();
    for i in 0..n {
        renew(t, i, dates, w, since);
        l = lay_next(t, i, l);
    }
    l
}

// Brings the records of the first `count` channels up to date, as far as there are records, with each the octets below its channel. Answers their
// channels' layout.
pub fn refresh(t: &mut [u64], count: usize, root: Settings, dates: Dates) -> Layout
    ensures { Refreshed t.old (min count channel_limit) root dates result t.new }
{
    let n = at_most(t, count);
    let w = words::words_of(dates.note(root));
    let since = since_of(dates.times);
    renew_all(t, n, dates, &w, &since)
}
