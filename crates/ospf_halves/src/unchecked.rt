// The neighbours of a router by the links of its LSA (02, #106; RFC 2328, A.4.2): places, the lowest metrics, and the halves given.
ghost use Rattle.std.specs.Prelude.{◌≡◌, ◌==◌, position, [], ◌∷◌, ◌++◌, ◌<◌, ◌≤◌, min, length, take};
ghost use Rattle.network.specs.Lists.{any};
ghost use Rattle.std.specs.Option.{option_map};
ghost use Rattle.topology_types.specs.Limits.{most_routers};
ghost use Rattle.ospf_lsas.specs.Lsa.{all_of, links};
ghost use Rattle.ospf_lsas.specs.Opened.{link_seen, links_left};
ghost use Rattle.ospf_halves.specs.Neighbours.{point_to_point, lowest_to_lem, halves_of};
ghost use Rattle.ospf_halves.specs.Inner.{new_place_lem};

use ospf_lsas::{Lsa, RouterLink, RouterLinks};
use topology_types::{Half, Place, ROUTERS};

// The halves that an LSA gives, in turn, at most one to each router: so many, at the start of the array, since there is no heap.
#[derive(Clone, Copy)]
pub struct Halves {
    pub count: usize,
    pub half: [Half; ROUTERS],
    pub ghost few: { count ≤ most_routers },
    pub ghost slots: { length half ≡ most_routers },
}

impl Halves {
    fn none() -> Halves
        ensures { result.count ≡ 0 }
    {
        let unset = Half {
            from: Place(0),
            to: Place(0),
            cost: 0,
        };
        Halves {
            count: 0,
            half: [unset; ROUTERS],
        }
    }

    fn push(&mut self, half: Half)
        requires { self.old.count < most_routers }
        ensures { take self.new.count self.new.half ≡ take self.old.count self.old.half ++ half ∷ [] }
    {
        self.half[self.count] = half;
        self.count += 1;
    }

    // All of them.
    pub fn as_slice(&self) -> &[Half]
        ensures { result.now ≡ take self.now.count self.now.half }
    {
        &self.half[..self.count]
    }
}

// The first place of an ID.
fn place_of(ids: &[u32], id: u32) -> Option<usize>
    ensures { result ≡ position (λ i. i == id) ids.now }
{
    ids.iter().position(|i| *i == id)
}

// Whether one of the halves leads to the place.
fn is_led_to(halves: &[Half], to: Place) -> bool
    ensures { result ≡ any (λ h. h.to.0 == to.0) halves.now }
{
    halves.iter().any(|h| h.to == to)
}

// The place of the router that a link of type 1 leads to, if it has one and none of the halves leads there.
fn new_place(link: RouterLink, ids: &[u32], halves: &[Half]) -> Option<Place>
    requires { length ids.now ≤ most_routers }
    ensures { option_map (λ p. p.0) result ≡ new_place_lem ids.now halves.now (link_seen link) }
{
    if link.kind != 1 {
        return None;
    }
    let to = Place(place_of(ids, link.id)? as u8);
    if is_led_to(halves, to) {
        None
    } else {
        Some(to)
    }
}

// The lowest metric of a link and of those of type 1 to the same router.
fn lowest_to(links: RouterLinks, link: RouterLink) -> u16
    ensures { result ≡ min link.metric (lowest_to_lem link.id (point_to_point (links_left links.entry))) }
{
    let mut lowest = link.metric;
    for l in links {
        if l.kind == 1 && l.id == link.id {
            lowest = lowest.min(l.metric);
        }
    }
    lowest
}

// What the LSA at a place gives, by IDs: one half to each neighbour that has an LSA, in the order first listed.
pub fn given(lsa: Lsa, place: Place, ids: &[u32]) -> Halves
    requires { length ids.now ≤ most_routers }
    ensures few { result.count ≤ length ids.now }
    ensures halves { take result.count result.half ≡ halves_of ids.now place.0 (all_of (links lsa.entry.bytes.now)) }
{
    let links = lsa.links();
    let mut halves = Halves::none();
    for link in links {
        if let Some(to) = new_place(link, ids, halves.as_slice()) {
            halves.push(Half {
                from: place,
                to,
                cost: lowest_to(links, link),
            });
        }
    }
    halves
}
