// The fields of a line: places, of one digit or two, and ranks, bytes of up to three, a space before each.
ghost use Rattle.std.specs.Prelude.{◌*◌, ◌<◌, length};
ghost use Rattle.text.specs.Page.{Puts, Room};
ghost use Rattle.listing_rules.specs.Inner.{spaced_number, fields_text, Short};

use text::unchecked::lines::Page;
use topology_types::{Place, Rank};

// A space and a number.
fn put_field(page: &mut Page<'_>, n: u8)
    requires { (n < 100) × Room page.old 3 }
    ensures { Puts page.old (spaced_number n) page.new }
{
    page.put(b" ");
    page.put_small(n);
}

// A space and a place.
pub(crate) fn put_place(page: &mut Page<'_>, place: Place)
    requires { (place.0 < 100) × Room page.old 3 }
    ensures { Puts page.old (spaced_number place.0) page.new }
{
    put_field(page, place.0);
}

// A space and a rank.
pub(crate) fn put_rank(page: &mut Page<'_>, rank: Rank)
    requires { Room page.old 4 }
    ensures { Puts page.old (spaced_number rank.0) page.new }
{
    let n = rank.0;
    if n < 100 {
        put_field(page, n);
    } else {
        put_field(page, n / 10);
        page.put(&[b'0' + n % 10]);
    }
}

// Places, one behind the other.
pub fn put_fields(page: &mut Page<'_>, numbers: &[u8])
    requires { Short numbers.now × Room page.old (3 * length numbers.now) }
    ensures { Puts page.old (fields_text numbers.now) page.new }
{
    for n in numbers {
        put_place(page, Place(*n));
    }
}
