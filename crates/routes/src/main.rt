// The program for the repair crews (02, 103): reads a topology stream on standard input as the listing does, and prints, by the listing's tables, for each
// destination and within it each start, by place, every path as places, one a line: destination, start, `:`, places. A start with more than 512 paths has
// one line: destination, start, `: more than 512 paths`. A refused stream prints the listing's line: `refused`, number, at.
#![tactic(auto)]

ghost use Rattle.std.specs.Prelude.{◌≤◌, ◌<◌, T, length};
ghost use Rattle.topology_sound.specs.Sound.{sound};
ghost use Rattle.arcs.specs.Inner.{Laid};
ghost use Rattle.paths_lines.specs.Inner.{most_path_lines, Toward};

use arcs::Arcs;
use order::Mode;
use program_io::STDOUT;
use text::unchecked::lines::Page;
use topology::{Place, Topology};

// Writes the lines of a start; answers whether that went well.
fn write_from(t: &Topology, table: &[u8], destination: Place, start: Place, out: &mut [u8]) -> bool
    requires { Toward t.now table.now destination.0 start.0 × (most_path_lines ≤ length out.old) }
{
    let mut page = Page::new(out);
    paths_lines::unchecked::put_lines(t, table, destination, start, &mut page);
    let end = page.filled;
    io::write_all(STDOUT, &out[..end])
}

// Writes the lines of a destination, start by start, by place; answers whether that went well.
fn write_to(t: &Topology, a: &Arcs, destination: Place, out: &mut [u8]) -> bool
    requires { T (sound t.now) × Laid t.now a.now × (destination.0 < t.now.routers) × (most_path_lines ≤ length out.old) }
{
    let built = table::unchecked::build(t, a, destination, Mode::ShortestPath);
    let table = built.as_slice();
    for u in 0..t.routers {
        if !write_from(t, table, destination, Place(u as u8), out) {
            return false;
        }
    }
    true
}

// Writes the lines of all destinations, by place, until that fails.
fn write_each(t: &Topology, a: &Arcs, out: &mut [u8])
    requires { T (sound t.now) × Laid t.now a.now × (most_path_lines ≤ length out.old) }
{
    for d in 0..t.routers {
        if !write_to(t, a, Place(d as u8), out) {
            return;
        }
    }
}

// Writes the output for a stream.
fn write_for(stream: &[u8], out: &mut [u8])
    requires { most_path_lines ≤ length out.old }
{
    match topology::read(stream) {
        Err(refusal) => {
            let mut page = Page::new(out);
            program_io::unchecked::put_refused(&mut page, refusal.answer());
            let end = page.filled;
            io::write_all(STDOUT, &out[..end]);
        }
        Ok(t) => write_each(&t, &arcs::unchecked::of(t), out),
    }
}

// What is read and written no contract says. That the bytes are the first 65,536 of standard input, that the lines of every start of every destination,
// which `put_lines` makes, go to standard output once, by place, until that fails, and that of a refused stream only its line does, is read here, in
// `write_for` and in the two loops, and tried by examples/edges.
fn main() {
    let mut input = program_io::room_for_input();
    let n = program_io::read_input(&mut input);
    let mut out = paths_lines::unchecked::room_for_lines();
    write_for(&input[..n], &mut out);
}
