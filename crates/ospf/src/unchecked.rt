// The steps of an import behind the tests 26 and 27 of the whole file (02, #106): the routers, then the halves.
ghost use Rattle.std.specs.Prelude.{◌≡◌, IfOk};
ghost use Rattle.stream_rules.specs.Reading.{reading_of};
ghost use Rattle.ospf_lsas.specs.Opened.{lsas_left};
ghost use Rattle.ospf.specs.Inner.{listing_of, HasRouters, routers_taken, taken_in_turn};

use ospf_lsas::Lsas;
use stream::unchecked::Listing;
use topology_types::{Place, Refusal, Topology};

// The routers, LSA by LSA: refusal 3 or 4, or what lists them and no halves.
pub fn routers_of(lsas: Lsas) -> Result<Listing, Refusal>
    ensures reads { listing_of result ≡ routers_taken (lsas_left lsas.entry) }
    ensures listed { IfOk result (HasRouters (lsas_left lsas.entry)) }
{
    let mut listing = Listing::new();
    for lsa in lsas {
        listing
            .take_router(lsa.advertising_router())
            .map_err(|fault| fault.at(lsa.at))?;
    }
    Ok(listing)
}

// The halves, LSA by LSA, behind the routers, which are listed: refusal 6, 7, 9, 10 or 12, or what is imported.
pub fn with_halves(mut listing: Listing, lsas: Lsas) -> Result<Topology, Refusal>
    requires { HasRouters (lsas_left lsas) listing }
    ensures { reading_of result ≡ taken_in_turn (lsas_left lsas.entry) }
{
    for (place, lsa) in lsas.enumerate() {
        let given = ospf_halves::unchecked::given(lsa, Place(place as u8), listing.ids());
        for half in given.as_slice() {
            listing.take_half(*half).map_err(|fault| fault.at(lsa.at))?;
        }
    }
    listing.ended(0, 1)
}
