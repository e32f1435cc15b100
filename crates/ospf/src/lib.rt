// The topology from router-LSAs (RFC 2328, A.4.2), one after another in a file (02, #106).
#![tactic(auto)]

pub mod unchecked;

ghost use Rattle.std.specs.Prelude.{◌≡◌};
ghost use Rattle.stream_rules.specs.Reading.{reading_of};
ghost use Rattle.ospf_lsas.specs.Opened.{lsas_left};
ghost use Rattle.ospf.specs.Import.{importing};
ghost use Rattle.ospf.specs.Inner.{taken_in_turn};

use ospf_lsas::Lsas;
use stream_rules::Reading;
use topology_types::{Fault, Refusal, Topology};

// The routers, LSA by LSA, and then the halves, LSA by LSA: refusals 3, 4, 6, 7, 9, 10 and 12.
fn taken(lsas: Lsas) -> Result<Topology, Refusal>
    ensures { reading_of result ≡ taken_in_turn (lsas_left lsas.entry) }
{
    let listing = unchecked::routers_of(lsas)?;
    unchecked::with_halves(listing, lsas)
}

// Imports a file of router-LSAs: refusals 26, 27, 3, 4, 6, 7, 9, 10 and 12.
pub fn import(file: &[u8]) -> Result<Topology, Refusal>
    ensures { reading_of result ≡ importing file.now }
{
    let lsas = Lsas::of(file)?;
    match lsas.first_wrong_sum() {
        Some(at) => Err(Fault::WrongChecksum.at(at)),
        None => taken(lsas),
    }
}

// The same as one value: refused, the topology is all zeros.
pub fn import_or_zeros(file: &[u8]) -> Reading
    ensures { result ≡ importing file.now }
{
    Reading::of(import(file))
}
