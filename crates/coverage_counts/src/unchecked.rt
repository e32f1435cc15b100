// For callers that have tested the topology, laid out its arcs and have room on the page.
ghost use Rattle.std.specs.Prelude.{◌≡◌, T};
ghost use Rattle.topology_sound.specs.Sound.{sound};
ghost use Rattle.arcs.specs.Inner.{Laid};
ghost use Rattle.text.specs.Page.{Puts, Room};
ghost use Rattle.coverage_rules.specs.Coverage.{figures_of};
ghost use Rattle.coverage_rules.specs.Coverage as said;
ghost use Rattle.coverage_rules.specs.Printed.{fraction_text, fractions_text};
ghost use Rattle.coverage_rules.specs.Inner.{most_fraction, most_text};

use super::tables;
use arcs::Arcs;
use coverage_rules::Coverage;
use text::unchecked::lines::Page;
use topology_types::{Place, ROUTERS, Topology};

// The coverage figures of a topology.
pub fn coverage(t: &Topology, a: &Arcs) -> Coverage
    requires { T (sound t.now) × Laid t.now a.now }
    ensures { figures_of result ≡ said.coverage t.now }
{
    let n = t.routers;
    let mut listed = [0usize; ROUTERS];
    let mut covered: usize = 0;
    for d in 0..n {
        let tally = tables::tally_for(t, a, Place(d as u8));
        covered += tally.two;
        listed[d] = tally.entries;
    }
    Coverage {
        covered,
        pairs: n * (n - 1),
        destinations: n,
        links: t.links,
        listed,
    }
}

// One number over another, and the byte that ends them.
fn put_fraction(page: &mut Page<'_>, part: usize, whole: usize, last: u8)
    requires { Room page.old most_fraction }
    ensures { Puts page.old (fraction_text last (record { part = part; whole = whole })) page.new }
{
    page.put_pair(part, whole);
    page.put(&[last]);
}

// The coverage figures, each two ended by a byte.
pub fn put_coverage(c: &Coverage, page: &mut Page<'_>, last: u8)
    requires { Room page.old most_text }
    ensures { Puts page.old (fractions_text last (figures_of c.now)) page.new }
{
    put_fraction(page, c.covered, c.pairs, last);
    for listed in c.by_destination() {
        put_fraction(page, *listed, c.links, last);
    }
}
