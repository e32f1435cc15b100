// The listing program (01, Two networks by hand): reads a topology stream on standard input, at most 65,536 bytes, and prints, in shortest-path mode, a
// line for each destination and within it each router, by place: destination, router, rank, greatest hop count and row, `-` if it is empty; for
// a router with no path to the destination 255, 255 and `-` (02, #107). A refused stream prints one line: `refused`, number, at. The rest of a longer
// input is not read.
#![tactic(auto)]

ghost use Rattle.std.specs.Prelude.{◌≡◌, ◌≤◌, length};
ghost use Rattle.text.specs.Inner.{Put};
ghost use Rattle.text.specs.Page.{Puts, Room};
ghost use Rattle.listing.specs.Output.{listing_output};

use text::unchecked::lines::Page;

// Room for every output: 3,968 bytes for each of 64 destinations.
const OUTPUT: usize = 253952;

fn room() -> [u8; OUTPUT]
    ensures { 253952 ≡ length result }
{
    text::filled(0)
}

// The whole output for a stream.
fn put_onto(page: &mut Page<'_>, stream: &[u8])
    requires { Room page.old 253952 }
    ensures { Puts page.old (listing_output stream.now) page.new }
{
    match topology::read(stream) {
        Err(refusal) => program_io::unchecked::put_refused(page, refusal.answer()),
        Ok(t) => report::unchecked::put_all(&t, &arcs::unchecked::of(t), page),
    }
}

// The whole output for a stream, at the start of the slice; answers how many bytes it has.
fn put_output(stream: &[u8], out: &mut [u8]) -> usize
    requires { 253952 ≤ length out.old }
    ensures { (result ≤ 253952) × Put out.old 0 (listing_output stream.now) result out.new }
{
    let mut page = Page::new(out);
    put_onto(&mut page, stream);
    page.filled
}

// What is read and written no contract says. That the bytes are the first 65,536 of standard input, and that their output goes to standard output once, is
// read in `program_io`, and tried by examples/edges.
fn main() {
    let mut out = room();
    program_io::unchecked::print_by(put_output, &mut out);
}
