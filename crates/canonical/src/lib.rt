// The canonical writer: the same recording in the one form of document 01.
//
// Promises, for any octets and any buffer: `write_canonical` answers the file's own refusal, or 23 where the canonical file is longer than the
// buffer or than a file may be, with every octet of the buffer as it was; else the canonical file stands at the start of the buffer, its
// length is answered, and the octets past it are as they were. `canonical_length` answers the same without a buffer: what the writer does
// where there is room for any file.
// Read first: specs/Recording.antt (what a recording is), specs/Canonical.antt (its octets; a frame's head and groups are in crate groups),
// specs/Write.antt (the writer's answer).
// Refusal comes first: the size is known from one pass over the file before the first octet is stored. A frame is stored by crate frames.
#![tactic(auto)]

ghost use Rattle.std.specs.Prelude.{◌≡◌, ◌∷◌, [], ◌≤◌, length};
ghost use Rattle.stores.specs.Storing.{Put};
ghost use Rattle.heads.specs.declared.Fault.TheVariants.{NoRoom};
ghost use Rattle.heads.specs.Answer.{refused_as, answer_of};
ghost use Rattle.canonical.specs.Write.{canonical_of, canonical_length_of, Ready, Wrote};

use heads::{Fault, Refusal};
use pass::Asked;
use standing::Standing;
use walk::Head;
use words::Records;

// 01 01 00.
fn put_order(out: &mut [u8]) -> usize
    requires { 3 ≤ length out.old }
    ensures { Put out.old 0 (0x01 ∷ 0x01 ∷ 0x00 ∷ []) result out.new }
{
    let a = stores::put_two(out, 0, 0x01, 0x01);
    stores::put_octet(out, a, 0x00)
}

// Writes the frames of an accepted file that has some, behind 01 01 00.
fn write_frames(s: &[u8], out: &mut [u8]) -> usize
    requires { Ready s.now out.old }
    ensures { Put out.old 0 (canonical_of s.now) result out.new }
{
    let mut at = put_order(out);
    let mut t = [0u64; Records::TABLE];
    records::clear(&mut t);
    let mut h = Head::first();
    loop {
        let m = walk::advance(s, h, &mut t);
        let step = m.step;
        h = m.head;
        match step {
            Ok(Some(v)) => {
                let w = octets::part(s, v.place, v.len);
                at = frames::put_frame(
                    w,
                    v.start as i32,
                    v.little,
                    v.sequences,
                    &t,
                    v.channels as usize,
                    out,
                    at,
                );
            }
            Ok(None) => {
                return at;
            }
            Err(_) => {
                return at;
            }
        }
    }
}

// The canonical file is longer than there is room.
fn no_room() -> Result<usize, Refusal>
    ensures { answer_of result ≡ refused_as NoRoom 0 }
{
    Err(Refusal {
        fault: Fault::NoRoom,
        place: 0,
    })
}

// The length of a file's canonical file, from one pass over the file; nothing is written.
pub fn canonical_length(s: &[u8]) -> Result<usize, Refusal>
    ensures { answer_of result ≡ canonical_length_of s.now }
{
    let pass = pass::scan_file(
        s,
        Asked {
            frame: 0,
            channel: 0,
        },
    );
    let n = pass.checked?;
    if n == 0 {
        return Ok(0);
    }
    let size = pass.size as usize;
    if Standing::OCTETS - 3 < size {
        return no_room();
    }
    Ok(size + 3)
}

// Writes the canonical file of a file into the front of a buffer.
pub fn write_canonical(s: &[u8], out: &mut [u8]) -> Result<usize, Refusal>
    ensures { Wrote s.now out.old (answer_of result) out.new }
{
    let octets = canonical_length(s)?;
    if octets == 0 {
        return Ok(octets);
    }
    if out.len() < octets {
        return no_room();
    }
    Ok(write_frames(s, out))
}
