// Checks the MFER file on standard input, of at most 60,000 octets, and writes one line: `frames N`, `refused R at P` or `too long`.
//
// Promises, for any reader and any writer whose octets are known: what is written is the line of the file that is read. That the streams of the system are such a
// reader and such a writer is not claimed.
// Read first: specs/Said.antt.
#![tactic(auto)]

ghost use Rattle.std.specs.Prelude.{OnOk, IfSome};
ghost use Rattle.std.specs.Io.KnownBytes.{Appends};
ghost use Rattle.bench.specs.Said.{said_of};

use std::io;
use std::io::{Read, Write};

// The octets of a file on the bench at most.
const LIMIT: usize = 60_000;

// Reads a file and writes its line. One octet more than the limit is read, to see that a file is longer.
fn answer<R: Read, W: Write>(from: &mut R, to: &mut W) -> io::Result<()>
    ensures { OnOk result (IfSome (R.remaining from.old) (λ file. Appends (W.contents to.old) (W.contents to.new) (said_of file))) }
{
    let mut file = [0u8; LIMIT + 1];
    let n = input::read_full(from, &mut file)?;
    if LIMIT < n {
        return to.write_all(b"too long\n");
    }
    let mut line = [0u8; line::BUFFER];
    let k = line::put_line(reader::check(&file[..n]), &mut line);
    to.write_all(octets::part(&line, 0, k))
}

fn main(rt: HostRuntime) -> io::Result<()> {
    answer(&mut rt.stdin(), &mut rt.stdout())
}
