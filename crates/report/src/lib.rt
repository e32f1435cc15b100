// The listing (01, Two networks by hand): a line for each router, one destination at a time; and the coverage figures (02, #102).
#![tactic(auto)]

use text::unchecked::lines::Page;
use topology_types::{Fault, Place, Refusal, Topology};

mod printing;
pub mod unchecked;

ghost use Rattle.std.specs.Prelude.{◌≡◌};
ghost use Rattle.topology_types.specs.Outcome.{answer_of};
ghost use Rattle.coverage_rules.specs.Coverage.{coverage_of};
ghost use Rattle.coverage_rules.specs.Coverage as «said-coverage»;
ghost use Rattle.listing_rules.specs.Listing as said;

pub use coverage_rules::{Coverage, CoverageAnswer};

// The lines of a destination, in shortest-path mode: refusals 14, 15 and 24.
pub fn listing(t: Topology, destination: Place, out: &mut [u8]) -> Result<usize, Refusal>
    ensures { record { answer = answer_of result; buffer = out.new } ≡ said.listing t destination.0 out.old }
{
    topology_sound::test_place(t, destination)?;
    let mut lines = printing::room_for_lines();
    let mut page = Page::new(&mut lines);
    unchecked::put_lines(&t, &arcs::unchecked::of(t), destination, &mut page);
    let needed = page.filled;
    if out.len() < needed {
        return Err(Fault::BufferTooShort.at(needed));
    }
    out[..needed].copy_from_slice(&lines[..needed]);
    Ok(needed)
}

// The coverage figures, over the listing's tables: refusal 14.
pub fn coverage(t: Topology) -> Result<Coverage, Refusal>
    ensures { coverage_of result ≡ «said-coverage».coverage t }
{
    if !topology_sound::is_sound(t) {
        return Err(Fault::UnsoundTopology.at(0));
    }
    Ok(coverage_counts::unchecked::coverage(&t, &arcs::unchecked::of(t)))
}

// The same as one value.
pub fn coverage_or_zeros(t: Topology) -> CoverageAnswer
    ensures { result ≡ «said-coverage».coverage t }
{
    CoverageAnswer::of(coverage(t))
}
