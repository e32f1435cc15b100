// Functions that the crates above call too.
ghost use Rattle.std.specs.Prelude.{◌≡◌};
ghost use Rattle.network.specs.Lists.{member};
ghost use Rattle.topology_types.specs.Limits.{most_next_hops};
ghost use Rattle.topology_sound.specs.Sound.{within};

use topology_types::NEXT_HOPS;

// Whether the ID is among these.
pub fn is_listed(ids: &[u32], id: u32) -> bool
    ensures { result ≡ member id ids.now }
{
    ids.contains(&id)
}

// Whether this may be a next-hop limit.
#[tactic(auto, unfolding(crate::specs::Sound::within))]
pub fn in_range(limit: u8) -> bool
    ensures { result ≡ within most_next_hops limit }
{
    (1..=NEXT_HOPS).contains(&limit)
}
