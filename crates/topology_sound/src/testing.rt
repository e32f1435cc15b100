// The tests behind refusal 14.
ghost use Rattle.std.specs.Prelude.{◌&&◌, map, ◌≡◌, ◌≤◌, eqb, leb, length};
ghost use Rattle.network.specs.Lists.{keep, distinct, every};
ghost use Rattle.network.specs.Network.{pairs_differ, sound_link};
ghost use Rattle.topology_types.specs.Limits.{most_routers, most_links, most_next_hops};
ghost use Rattle.topology_types.specs.Topology.{contents, seen};
ghost use Rattle.topology_types.specs.Inner.{CountsFit};
ghost use Rattle.topology_sound.specs.Sound.{within, uncrowded};
ghost use Rattle.topology_sound.specs.Sound as said;

use super::unchecked;
use topology_types::{LINKS, Link, NEIGHBOURS, ROUTERS, Topology};

#[tactic(auto, unfolding(crate::specs::Sound::within))]
pub(crate) fn in_limits(routers: usize, links: usize, limit: u8) -> bool
    ensures { result ≡ (within most_routers routers && leb links most_links && within most_next_hops limit) }
{
    (1..=ROUTERS).contains(&routers) && links <= LINKS && unchecked::in_range(limit)
}

// How often the ID stands among these. The loop goes to its end and counts in 32 bits, so that many IDs are taken at a time: `filter` and `count` took
// twice the instructions.
fn times(ids: &[u32], id: u32) -> u32
    requires { length ids.now ≤ most_routers }
    ensures { result ≡ length (keep (eqb id) ids.now) }
{
    let mut found = 0;
    for x in ids {
        if *x == id {
            found += 1;
        }
    }
    found
}

// An ID is counted up to the end of its block of eight, so that whole blocks are taken at a time.
pub(crate) fn ids_differ(ids: &[u32]) -> bool
    requires { length ids.now ≤ most_routers }
    ensures { result ≡ distinct ids.now }
{
    for (i, id) in ids.iter().enumerate() {
        let end = ids.len().min(i / 8 * 8 + 8);
        if times(&ids[..end], *id) != 1 {
            return false;
        }
    }
    true
}

// Goes once through the links. A table of pairs of places holds the pairs that are linked so far, each in both orders; beside it each place has the
// number of its neighbours so far.
pub(crate) fn links_fit(t: Topology) -> bool
    requires { CountsFit t }
    ensures { let ls = map seen (contents t).links in result ≡ (every (sound_link t.routers) ls && pairs_differ ls && uncrowded t) }
{
    let n = t.routers;
    let mut linked = [false; ROUTERS * ROUTERS];
    let mut count = [0usize; ROUTERS];
    for l in &t.link[..t.links] {
        let first = l.first.index();
        let second = l.second.index();
        if n <= first || n <= second {
            return false;
        }
        if first == second || l.cost == 0 || l.back == 0 {
            return false;
        }
        if linked[first * ROUTERS + second] {
            return false;
        }
        linked[first * ROUTERS + second] = true;
        linked[second * ROUTERS + first] = true;
        let at_first = count[first];
        let at_second = count[second];
        if NEIGHBOURS <= at_first || NEIGHBOURS <= at_second {
            return false;
        }
        count[first] = at_first + 1;
        count[second] = at_second + 1;
    }
    true
}

pub(crate) fn zeros(ids: &[u32]) -> bool
    ensures { result ≡ every (eqb 0) ids.now }
{
    ids.iter().all(|id| 0 == *id)
}

// Test by test, as the definition: `==` with a link of zeros would compare the same four.
#[tactic(auto, unfolding(crate::specs::Sound::is_no_link))]
fn is_no_link(l: &Link) -> bool
    ensures { result ≡ said.is_no_link l.now }
{
    l.first.0 == 0 && l.second.0 == 0 && l.cost == 0 && l.back == 0
}

pub(crate) fn no_links(links: &[Link]) -> bool
    ensures { result ≡ every said.is_no_link links.now }
{
    links.iter().all(|l| is_no_link(l))
}
