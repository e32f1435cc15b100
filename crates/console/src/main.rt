// The console: calls of the library from a shell, or from another language. It takes one request a line on standard input, with fields parted by
// one space, numbers in decimal, bytes in lowercase hex and `-` for none, and answers one line each. Held are a topology, a table and a
// packet, at first all zeros, no bytes and (0, 0).
//
//     topology STREAM             NUMBER AT; what reading returned is held from then on
//     import FILE                 NUMBER AT; what was imported is held from then on
//     write ROOM                  NUMBER AT BUFFER
//     order D MODE ROOM           NUMBER AT BUFFER
//     check-order D MODE ORDER    NUMBER AT
//     fill D ORDER ROOM           NUMBER AT BUFFER
//     load-table TABLE            0 0; the bytes are held from then on, untested
//     check-table                 NUMBER AT
//     greatest ROOM               NUMBER AT BUFFER
//     load-packet STATION HOPS    0 0; the packet is held from then on, untested
//     set START                   set STATION HOPS, and that packet is held from then on; or refused NUMBER AT
//     hop STATES                  delivered, moved or dropped, then STATION HOPS as the held packet is now; or refused NUMBER AT
//     walk START SCHEDULE         delivered or dropped, then STATION HOPS; or refused NUMBER AT
//     listing D ROOM              NUMBER AT BUFFER
//     old-stream STREAM ROOM      NUMBER AT BUFFER
//     paths START ROOM            NUMBER AT BUFFER
//     te VALUE                    NUMBER AT COST, then metric, maximum and reservable: 1 or 0 for present, and its number, a bandwidth's 32-bit pattern
//     coverage                    14 0; or 0 0 and the numbers that the program `coverage` prints, in their order
//
// BUFFER is ROOM bytes of `aa`, at most 65,536 of them, as the call left it. D, START, STATION and HOPS are at most 255, and MODE is `shortest` or `free`.
// Any other line, and one of more than 262,144 bytes, answers `error` and changes nothing.
#![tactic(auto)]

mod answers;
mod requests;
mod session;

ghost use Rattle.std.specs.Prelude.{◌≡◌, take};
ghost use Rattle.std.specs.Counts.{IsPrefixLen};
ghost use Rattle.std.specs.Io.KnownBytes.{Consumes};

use session::Session;
use std::io::{Read, Stdin};

// A proved loop has to end, and nothing says that the input does: so many reads no run uses up.
const READS: u64 = 1 << 40;

// Reads once, and answers how many bytes are at the start of the slice, the next of those that the reader has: none at the end, or where reading fails.
fn read_once<R: Read>(from: &mut R, text: &mut [u8]) -> usize
    ensures count { IsPrefixLen result text.new }
    ensures bytes { Consumes (R.remaining from.old) (R.remaining from.new) (take result text.new) }
{
    from.read(text).unwrap_or(0)
}

// Takes what is read, until nothing is or an answer is not written.
fn serve(session: &mut Session, mut from: Stdin) {
    for _ in 0..READS {
        let mut text = io::large_buffer();
        let n = read_once(&mut from, &mut text);
        if n == 0 || !session.take(&text[..n]) {
            break;
        }
    }
}

fn main(rt: HostRuntime) {
    let mut session = Session::new();
    serve(&mut session, rt.stdin());
    if session.has_begun() {
        session.answer();
    }
}
