// Writing octets, numbers, lengths and a number's item into a buffer that the caller lends.
//
// Every public function is total. It stores one list of octets from the place `at` on and returns the place after it;
// where the list does not fit it stores nothing and returns `at`. `Putting` of specs/Storing.antt says this once. Read it
// first, and then the definition that each contract names. Two store nothing: `overruns` says what does not fit, and `length_octets`
// how many octets a length takes.
#![tactic(auto)]

ghost use Rattle.std.specs.Prelude.{◌≡◌, ◌∷◌, [], ◌+◌, ltb, length};
ghost use Rattle.stores.specs.Number.{be, field};
ghost use Rattle.stores.specs.Length.{shortest};
ghost use Rattle.stores.specs.Storing.{Putting};

// Whether n octets from `at` on end past `size`.
pub fn overruns(size: usize, at: usize, n: usize) -> bool
    ensures { result ≡ ltb size (at + n) }
{
    if size < at {
        return true;
    }
    size - at < n
}

// Stores the w low octets of x, the highest first.
pub fn put_number(buf: &mut [u8], at: usize, w: usize, x: u64) -> usize
    ensures { Putting buf.old at (be w x) result buf.new }
{
    if overruns(buf.len(), at, w) {
        return at;
    }
    let mut v = x;
    for i in (0..w).rev() {
        buf[at + i] = (v % 256) as u8;
        v /= 256;
    }
    at + w
}

// Stores one octet.
pub fn put_octet(buf: &mut [u8], at: usize, b: u8) -> usize
    ensures { Putting buf.old at (b ∷ []) result buf.new }
{
    if overruns(buf.len(), at, 1) {
        return at;
    }
    buf[at] = b;
    at + 1
}

// Stores two octets.
pub fn put_two(buf: &mut [u8], at: usize, a: u8, b: u8) -> usize
    ensures { Putting buf.old at (a ∷ b ∷ []) result buf.new }
{
    if overruns(buf.len(), at, 2) {
        return at;
    }
    buf[at] = a;
    buf[at + 1] = b;
    at + 2
}

// How many octets the shortest form of the length n has.
pub fn length_octets(n: u32) -> usize
    ensures { result ≡ length (shortest n) }
{
    if n < 128 {
        return 1;
    }
    let x = u64::from(n);
    if x < octets::ONE_OCTET {
        return 2;
    }
    if x < octets::TWO_OCTETS {
        return 3;
    }
    if x < octets::THREE_OCTETS {
        return 4;
    }
    5
}

// Stores the shortest form of the length n.
pub fn put_length(buf: &mut [u8], at: usize, n: u32) -> usize
    ensures { Putting buf.old at (shortest n) result buf.new }
{
    let size = length_octets(n);
    if overruns(buf.len(), at, size) {
        return at;
    }
    if n < 128 {
        return put_octet(buf, at, n as u8);
    }
    let next = put_octet(buf, at, (127 + size) as u8);
    put_number(buf, next, size - 1, u64::from(n))
}

// Stores a number's item: its tag, its width, and its w low octets.
pub fn put_field(buf: &mut [u8], at: usize, tag: u8, w: u8, x: u64) -> usize
    ensures { Putting buf.old at (field tag w x) result buf.new }
{
    if overruns(buf.len(), at, 2 + usize::from(w)) {
        return at;
    }
    let next = put_two(buf, at, tag, w);
    put_number(buf, next, usize::from(w), x)
}
