// The steps of taking routers and halves, for callers that have them from elsewhere than a stream; what is listed meanwhile; and numbers in bytes. What a
// `requires` says callers prove, and no code tests.
pub mod numbers;

ghost use Rattle.std.specs.Prelude.{◌+◌, ◌*◌, ◌≡◌, ◌≢◌, ◌<◌, ◌≤◌, [], ◌∷◌, cond, ltb, get_or, set};
ghost use Rattle.topology_types.specs.Limits.{most_routers, most_halves, most_links};
ghost use Rattle.topology_types.specs.Outcome.{failed};
ghost use Rattle.topology_types.specs.Topology.{Contents, contents};
ghost use Rattle.stream_rules.specs.Halves.{StreamListing};
ghost use Rattle.stream_rules.specs.Halves as said_of;
ghost use Rattle.stream_rules.specs.Reading.{refusal, reading_of, router_fault_lem, halves_fault_lem, nothing_listed};
ghost use Rattle.stream_rules.specs.Reading as said;
ghost use Rattle.stream_rules.specs.Record as record_of;
ghost use Rattle.stream_rules.specs.Inner.{record_seen, WhileRead, Indexed, Stands};
ghost use Rattle.stream.specs.Inner.{Placed, Roomy, ends_fault, listed_fault, opposite_cost, paired};

pub use super::tables::Tables;
use super::{Reading, Record};
use topology_types::{
    Answer, DEFAULT_NEXT_HOPS, Fault, HALVES, Half, Link, ROUTERS, Refusal, Topology,
};

// Routers, links and lone halves that are listed: a half whose opposite is listed makes a link with it in the topology; lone ones stand in the tables
// alone. Beside them stands how many halves there are, lone ones too.
#[derive(Drop)]
pub struct Listing {
    topology: Topology,
    tables: Tables,
    halves: usize,
    ghost stands: { ∥ ((p : StreamListing) × Stands p topology tables.costs tables.leaving halves) ∥₁ },
}

// What a refused reading returns.
#[tactic(auto, unfolding(stream_rules::specs::Reading::refusal, topology_types::specs::Topology::zeros))]
pub fn refused(number: u8, at: usize) -> Reading
    ensures { result ≡ refusal number at }
{
    Reading {
        answer: Answer { number, at },
        topology: Topology::empty(0),
    }
}

// Refusals 3 and 4: why a router is refused, after those with these IDs.
pub fn router_fault(ids: &[u32], id: u32) -> Result<(), Fault>
    ensures { (c : Contents) → c.ids ≡ ids.now → failed result ≡ router_fault_lem c id }
{
    if topology_sound::unchecked::is_listed(ids, id) {
        return Err(Fault::RouterListedBefore);
    }
    if ROUTERS <= ids.len() {
        return Err(Fault::TooManyRouters);
    }
    Ok(())
}

// The half the other way round, at the same cost.
#[tactic(auto, unfolding(stream_rules::specs::Halves::opposite))]
fn opposite(h: Half) -> Half
    ensures { result ≡ said_of.opposite h }
{
    Half {
        from: h.to,
        to: h.from,
        cost: h.cost,
    }
}

// Refusals 5 to 7, with n routers listed.
fn test_ends(n: usize, h: Half) -> Result<(), Fault>
    ensures { failed result ≡ ends_fault n h }
{
    if n <= h.from.index() || n <= h.to.index() {
        return Err(Fault::PlaceNotListed);
    }
    if h.from == h.to {
        return Err(Fault::LinkToItself);
    }
    if h.cost == 0 {
        return Err(Fault::CostZero);
    }
    Ok(())
}

// Refusal 8 of the opposite half, where both are listed at once.
fn test_back(tables: &Tables, h: Half, both: bool) -> Result<(), Fault>
    requires { Placed h }
    ensures { failed result ≡ cond both (listed_fault tables.now.costs (said_of.opposite h)) 0 }
{
    if both {
        return tables.test_new(opposite(h));
    }
    Ok(())
}

// How many halves are listed at once.
fn count(both: bool) -> usize
    ensures { result ≡ cond both 2 1 }
{
    if both { 2 } else { 1 }
}

// Refusals 5 to 10: why a half is refused or, where both are listed at once, a link, with n routers and m halves listed so far, which the tables are of. A
// place is looked up only where it is listed.
pub fn halves_fault(tables: &Tables, n: usize, m: usize, h: Half, both: bool) -> Result<(), Fault>
    requires { (n ≤ most_routers) × (m ≤ most_halves) }
    ensures { (p : StreamListing) → Indexed p n m tables.now.costs tables.now.leaving → failed result ≡ halves_fault_lem p h (cond both (h ∷ said_of.opposite h ∷ []) (h ∷ [])) }
{
    test_ends(n, h)?;
    tables.test_new(h)?;
    test_back(tables, h, both)?;
    if HALVES < m + count(both) {
        return Err(Fault::TooManyLinks);
    }
    tables.test_room(h.from)?;
    if both {
        return tables.test_room(h.to);
    }
    Ok(())
}

// A half more, which no test refuses: with its opposite, if that is listed, it makes a link.
pub fn half_taken(t: &mut Topology, tables: &mut Tables, h: Half)
    requires { Roomy tables.old.leaving h × (opposite_cost tables.old.costs h ≢ 0 → t.old.links < most_links) }
    ensures { (t.new ≡ paired t.old h (opposite_cost tables.old.costs h)) × (tables.new.costs ≡ set tables.old.costs (h.from.0 * most_routers + h.to.0) h.cost) × (tables.new.leaving ≡ set tables.old.leaving h.from.0 (get_or tables.old.leaving h.from.0 0 + 1)) }
{
    let opposite = tables.cost_like(opposite(h));
    if opposite != 0 {
        let m = t.links;
        t.link[m] = Link {
            first: h.to,
            second: h.from,
            cost: opposite,
            back: h.cost,
        };
        t.links = m + 1;
    }
    tables.mark(h);
}

// At the end record: refusals 11 and 12.
pub fn ended(t: Topology, at: usize, length: usize) -> Result<Topology, Refusal>
    requires { at < «length» }
    ensures { WhileRead t → reading_of result ≡ said.ended (ltb (at + 1) «length») at (contents t) }
{
    if at + 1 < length {
        return Err(Fault::ByteAfterEnd.at(at + 1));
    }
    if t.routers == 0 {
        return Err(Fault::NoRouter.at(at));
    }
    Ok(t)
}

impl Listing {
    ghost use Rattle.stream.specs.Listing.{Lists, Taken};

    // Nothing is listed.
    pub fn new() -> Self
        ensures { Lists nothing_listed result }
    {
        Listing {
            topology: Topology::empty(DEFAULT_NEXT_HOPS),
            tables: Tables::new(),
            halves: 0,
        }
    }

    // The IDs of the routers, by place.
    pub fn ids(&self) -> &[u32]
        ensures { (p : StreamListing) → Lists p self.now → result.now ≡ p.contents.ids }
    {
        &self.topology.id[..self.topology.routers]
    }

    // A router more: refusals 3 and 4.
    pub fn take_router(&mut self, id: u32) -> Result<(), Fault>
        ensures { Taken (record_of.Router id) self.old self.new result }
    {
        router_fault(self.ids(), id)?;
        let n = self.topology.routers;
        self.topology.id[n] = id;
        self.topology.routers = n + 1;
        Ok(())
    }

    // A link more, both its halves at once: refusals 5 to 10.
    pub fn take_link(&mut self, h: Half) -> Result<(), Fault>
        ensures { Taken (record_of.Link h) self.old self.new result }
    {
        halves_fault(&self.tables, self.topology.routers, self.halves, h, true)?;
        let m = self.topology.links;
        self.topology.link[m] = Link {
            first: h.from,
            second: h.to,
            cost: h.cost,
            back: h.cost,
        };
        self.topology.links = m + 1;
        self.tables.mark(h);
        self.tables.mark(opposite(h));
        self.halves += 2;
        Ok(())
    }

    // A half more: refusals 5 to 10. With its opposite, if that is listed, it makes a link.
    pub fn take_half(&mut self, h: Half) -> Result<(), Fault>
        ensures { Taken (record_of.Half h) self.old self.new result }
    {
        halves_fault(&self.tables, self.topology.routers, self.halves, h, false)?;
        half_taken(&mut self.topology, &mut self.tables, h);
        self.halves += 1;
        Ok(())
    }

    // The next-hop limit: refusal 16.
    pub fn take_limit(&mut self, k: u8) -> Result<(), Fault>
        ensures { Taken (record_of.Limit k) self.old self.new result }
    {
        if !topology_sound::unchecked::in_range(k) {
            return Err(Fault::LimitOutOfRange);
        }
        self.topology.limit = k;
        Ok(())
    }

    // What a record of a stream lists.
    pub(crate) fn take(&mut self, record: Record) -> Result<(), Fault>
        ensures { Taken (record_seen (Ok «record»)) self.old self.new result }
    {
        match record {
            Record::Router(id) => self.take_router(id),
            Record::Link(h) => self.take_link(h),
            Record::Half(h) => self.take_half(h),
            Record::Limit(k) => self.take_limit(k),
            Record::End => Ok(()),
        }
    }

    // At the end record: refusals 11 and 12.
    pub fn ended(self, at: usize, length: usize) -> Result<Topology, Refusal>
        requires { at < «length» }
        ensures { (p : StreamListing) → Lists p self → reading_of result ≡ said.ended (ltb (at + 1) «length») at p.contents }
    {
        ended(self.topology, at, length)
    }
}
