// Whether reading could return a topology, and whether a place is one of its places (01, Refusals, 14 and 15).
#![tactic(auto)]

mod testing;
pub mod unchecked;

ghost use Rattle.std.specs.Prelude.{◌≡◌};
ghost use Rattle.topology_types.specs.Outcome.{answer, tested};
ghost use Rattle.topology_sound.specs.Sound.{sound};
ghost use Rattle.topology_sound.specs.Place.{on_place};

use topology_types::{Answer, Fault, Place, Refusal, Topology};

// Whether reading could return this topology: if not, refusal 14.
pub fn is_sound(t: Topology) -> bool
    ensures { result ≡ sound t }
{
    if !testing::in_limits(t.routers, t.links, t.limit) {
        return false;
    }
    if !testing::ids_differ(&t.id[..t.routers]) {
        return false;
    }
    if !testing::links_fit(t) {
        return false;
    }
    testing::zeros(&t.id[t.routers..]) && testing::no_links(&t.link[t.links..])
}

// The first tests of every call that is given a place: refusals 14 and 15.
pub fn test_place(t: Topology, place: Place) -> Result<(), Refusal>
    ensures { tested result ≡ on_place answer t place.0 (answer 0 0) }
{
    if !is_sound(t) {
        return Err(Fault::UnsoundTopology.at(0));
    }
    let u = place.index();
    if t.routers <= u {
        return Err(Fault::NoSuchPlace.at(u));
    }
    Ok(())
}

// The same as an answer: 0 at 0 where both pass.
pub fn refused_at(t: Topology, place: Place) -> Answer
    ensures { result ≡ on_place answer t place.0 (answer 0 0) }
{
    Answer::of_test(test_place(t, place))
}
