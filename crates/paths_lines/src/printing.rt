// Putting the lines of paths onto a page.
ghost use Rattle.std.specs.Prelude.{[], ◌∷◌, ◌≡◌, ◌/◌, ◌<◌, length};
ghost use Rattle.topology_types.specs.Limits.{most_routers};
ghost use Rattle.text.specs.Page.{Puts, Room};
ghost use Rattle.listing_rules.specs.Inner.{Short};
ghost use Rattle.paths_lines.specs.Lines.{too_many, line_of, path_line};
ghost use Rattle.paths_lines.specs.Inner.{most_path_line, most_path_lines, start_text, places_of, paths_text, Paths};

use paths::PATH;
use report::unchecked::fields::put_fields;
use text::unchecked::fields;
use text::unchecked::lines::Page;
use topology_types::Place;

// Destination, start and `:`.
fn put_front(page: &mut Page<'_>, destination: Place, start: Place)
    requires { Room page.old 43 }
    ensures { Puts page.old (start_text destination.0 start.0) page.new }
{
    page.put_pair(destination.index(), start.index());
    page.put(b" :");
}

// The line of a start with more than 512 paths.
pub(crate) fn put_too_many(page: &mut Page<'_>, destination: Place, start: Place)
    requires { Room page.old most_path_line }
    ensures { Puts page.old (line_of destination.0 start.0 (too_many ∷ [])) page.new }
{
    put_front(page, destination, start);
    page.put(b" more than 512 paths\n");
}

// The line of a path of 64 bytes, its places up to the padding.
fn put_path(page: &mut Page<'_>, destination: Place, start: Place, path: &[u8])
    requires { (destination.0 < 100) × (start.0 < 100) × (length path.now ≡ most_routers) × Short (places_of path.now) × Room page.old most_path_line }
    ensures { Puts page.old (path_line destination.0 start.0 (places_of path.now)) page.new }
{
    put_front(page, destination, start);
    let places = fields::width(path, 255);
    put_fields(page, &path[..places]);
    page.put(b"\n");
}

// The lines of paths, 64 bytes each.
pub(crate) fn put_paths(page: &mut Page<'_>, destination: Place, start: Place, paths: &[u8])
    requires { (destination.0 < 100) × (start.0 < 100) × Paths paths.now × Room page.old most_path_lines }
    ensures { Puts page.old (paths_text destination.0 start.0 paths.now (length paths.now / most_routers)) page.new }
{
    for path in paths.chunks_exact(PATH) {
        put_path(page, destination, start, path);
    }
}
