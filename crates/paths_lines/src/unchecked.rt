// For callers that have tested the topology, destination and start, built the table and have room on the page.
ghost use Rattle.std.specs.Prelude.{◌≡◌, ◌≤◌, length};
ghost use Rattle.text.specs.Page.{Puts, Room};
ghost use Rattle.paths_lines.specs.Lines.{lines_from};
ghost use Rattle.paths_lines.specs.Inner.{most_path_lines, Toward};

use super::printing;
use paths::{PATH, PATHS};
use text::unchecked::lines::Page;
use topology_types::{Place, Topology};

// Room for the lines of a start: 200 bytes for each path.
pub const LINES: usize = 200 * PATHS;

pub fn room_for_lines() -> [u8; LINES]
    ensures { most_path_lines ≡ length result }
{
    text::filled(0)
}

// The lines of a start.
pub fn put_lines(t: &Topology, table: &[u8], destination: Place, start: Place, page: &mut Page<'_>)
    requires { Toward t.now table.now destination.0 start.0 × Room page.old most_path_lines }
    ensures { Puts page.old (lines_from t.now destination.0 start.0) page.new }
{
    let mut paths = paths::unchecked::room_for_paths();
    match paths::unchecked::gather(t, table, start, &mut paths) {
        Some(count) => printing::put_paths(page, destination, start, &paths[..PATH * count]),
        None => printing::put_too_many(page, destination, start),
    }
}
