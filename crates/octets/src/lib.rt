// Octets: a part of a file, and the number that a few octets stand for.
//
// For the crates that read items, attributes and samples: none of them turns octets into numbers by itself.
// Promises: each public function answers for every input and its whole answer is a definition of specs/. What lies past
// the end is not there, and octets past the eighth are not looked at.
// Read first: specs/Number.antt; then the laws of proofs/Laws.antt and proofs/Octets.antt, which callers cite.
#![tactic(auto)]

ghost use Rattle.std.specs.Prelude.{◌≡◌, true, false, ◌+◌, ◌*◌, ◌≤◌, length, take, drop};
ghost use Rattle.octets.specs.Number.{NumberRead};

// How many numbers one octet, two, three and four can tell apart.
pub const ONE_OCTET: u64 = 256;

pub const TWO_OCTETS: u64 = 65_536;

pub const THREE_OCTETS: u64 = 16_777_216;

pub const FOUR_OCTETS: u64 = 4_294_967_296;

// The octets of s from at on, at most n.
pub fn part(s: &[u8], at: usize, n: usize) -> &[u8]
    ensures { result.now ≡ take n (drop at s.now) }
{
    let l = s.len();
    if l <= at {
        return &s[l..];
    }
    if l - at <= n {
        return &s[at..];
    }
    let e = at + n;
    &s[at..e]
}

// Highest octet first.
fn big_endian(s: &[u8]) -> u64
    requires { length s.now ≤ 8 }
    ensures { NumberRead false s.now result }
{
    let mut n = 0;
    for b in s {
        n = n * 256 + u64::from(*b);
    }
    n
}

// Lowest octet first.
fn little_endian(s: &[u8]) -> u64
    requires { length s.now ≤ 8 }
    ensures { NumberRead true s.now result }
{
    let mut n = 0;
    for b in s.iter().rev() {
        n = n * 256 + u64::from(*b);
    }
    n
}

// The number of two octets, the highest first.
pub fn two_octets(a: u8, b: u8) -> u64
    ensures { result ≡ a * 256 + b }
{
    u64::from(u16::from_be_bytes([a, b]))
}

// The same of four octets, and of eight.
pub fn four_octets(a: u8, b: u8, c: u8, d: u8) -> u64
    ensures { result ≡ ((a * 256 + b) * 256 + c) * 256 + d }
{
    u64::from(u32::from_be_bytes([a, b, c, d]))
}

pub fn eight_octets(a: u8, b: u8, c: u8, d: u8, e: u8, f: u8, g: u8, h: u8) -> u64
    ensures { result ≡ ((((((a * 256 + b) * 256 + c) * 256 + d) * 256 + e) * 256 + f) * 256 + g) * 256 + h }
{
    u64::from_be_bytes([a, b, c, d, e, f, g, h])
}

// The number of the first eight octets. Octets of a common width are read with no loop.
pub fn number(s: &[u8], little: bool) -> u64
    ensures { NumberRead «little» (take 8 s.now) result }
{
    if s.len() == 1 {
        return u64::from(s[0]);
    }
    if s.len() == 2 {
        let x = [s[0], s[1]];
        if little {
            return u64::from(u16::from_le_bytes(x));
        }
        return u64::from(u16::from_be_bytes(x));
    }
    if s.len() == 4 {
        let x = [s[0], s[1], s[2], s[3]];
        if little {
            return u64::from(u32::from_le_bytes(x));
        }
        return u64::from(u32::from_be_bytes(x));
    }
    let x = part(s, 0, 8);
    if little {
        little_endian(x)
    } else {
        big_endian(x)
    }
}
