// The coverage program (02, #102): reads a topology stream on standard input as the listing does, and prints, from the listing's tables, two numbers a line,
// unreduced: how many pairs of a router and another destination have two or more next hops, over N(N - 1), a pair without a path having none (#107); then
// for each destination, by place, how many next hops its rows list, over the number of links. A refused stream prints the listing's line: `refused`, number,
// at.
#![tactic(auto)]

ghost use Rattle.std.specs.Prelude.{◌≡◌, ◌≤◌, length};
ghost use Rattle.text.specs.Inner.{Put};
ghost use Rattle.text.specs.Page.{Puts, Room};
ghost use Rattle.coverage.specs.Output.{coverage_output};

use text::unchecked::lines::Page;

// Room for every output: 42 bytes for each of 65 lines.
const OUTPUT: usize = 2730;

fn room() -> [u8; OUTPUT]
    ensures { 2730 ≡ length result }
{
    text::filled(0)
}

// The whole output for a stream.
fn put_onto(page: &mut Page<'_>, stream: &[u8])
    requires { Room page.old 2730 }
    ensures { Puts page.old (coverage_output stream.now) page.new }
{
    match topology::read(stream) {
        Err(refusal) => program_io::unchecked::put_refused(page, refusal.answer()),
        Ok(t) => {
            let figures = coverage_counts::unchecked::coverage(&t, &arcs::unchecked::of(t));
            coverage_counts::unchecked::put_coverage(&figures, page, b'\n');
        }
    }
}

// The whole output for a stream, at the start of the slice; answers how many bytes it has.
fn put_output(stream: &[u8], out: &mut [u8]) -> usize
    requires { 2730 ≤ length out.old }
    ensures { (result ≤ 2730) × Put out.old 0 (coverage_output stream.now) result out.new }
{
    let mut page = Page::new(out);
    put_onto(&mut page, stream);
    page.filled
}

// What is read and written no contract says; it goes as in the listing.
fn main() {
    let mut out = room();
    program_io::unchecked::print_by(put_output, &mut out);
}
