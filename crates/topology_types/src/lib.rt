// Stations, links and their limits (01, Stations, links and limits), and the answer that calls return (01, Refusals and where they point).
#![tactic(auto)]

ghost use Rattle.std.specs.Prelude.{◌≡◌, []};
ghost use Rattle.topology_types.specs.Topology.{held};
ghost use Rattle.topology_types.specs.Outcome.{number_of, refused, answer_of, tested};

// The limits of 01, Stations, links and limits. specs/Limits.antt has the same numbers: where one differs, a proof fails.
pub const ROUTERS: usize = 64;

pub const LINKS: usize = 256;

// Halves of links in a stream, lone ones too (02, #105).
pub const HALVES: usize = 512;

// Neighbours of a router, and halves that leave it, lone ones too (02, #105).
pub const NEIGHBOURS: usize = 16;

pub const NEXT_HOPS: u8 = 16;

// The next-hop limit of a stream that gives none (02, #101).
pub const DEFAULT_NEXT_HOPS: u8 = 3;

// 01, Stations, links and limits: a router's place is its turn in the stream, from 0. "Place" and "rank" are 01's terms.
#[derive(Clone, Copy, Debug, PartialEq, Eq)]
pub struct Place(pub u8);

// 01, Order: a router's rank is its turn in an order, from 0. The code turns a rank into a place, or a place into a rank, through an order.
#[derive(Clone, Copy, Debug, PartialEq, Eq, PartialOrd, Ord)]
pub struct Rank(pub u8);

// A link joins the routers at two places. A cost belongs to the end that sends (02, #105): `cost` is that from the first place to the second, `back` that
// from the second to the first.
#[derive(Clone, Copy, Debug, PartialEq, Eq)]
pub struct Link {
    pub first: Place,
    pub second: Place,
    pub cost: u16,
    pub back: u16,
}

// One half of a link (02, #105): the place that sends, the place that it sends to, and what that costs. Two opposite halves make a link.
#[derive(Clone, Copy, Debug, PartialEq, Eq)]
pub struct Half {
    pub from: Place,
    pub to: Place,
    pub cost: u16,
}

// How many routers and links there are, the next-hop limit K, the router IDs by place and the links by number. Slots that are not used are zero.
// The counts stand beside the slots: fixed memory, no heap, and 14 tests a value whose counts may be any.
#[derive(Clone, Copy)]
pub struct Topology {
    pub routers: usize,
    pub links: usize,
    pub limit: u8,
    pub id: [u32; ROUTERS],
    pub link: [Link; LINKS],
}

// 01, Refusals and where they point, and the numbers that 02 adds: why a call refuses, in the order of the numbers (specs/Outcome.antt, number_of). No call
// refuses with 13 (02, #107).
#[derive(Clone, Copy, Debug, PartialEq, Eq)]
pub enum Fault {
    StreamCutShort,
    UnknownKind,
    RouterListedBefore,
    TooManyRouters,
    PlaceNotListed,
    LinkToItself,
    CostZero,
    PairLinkedAlready,
    TooManyLinks,
    TooManyNeighbours,
    ByteAfterEnd,
    NoRouter,
    UnsoundTopology,
    NoSuchPlace,
    LimitOutOfRange,
    OrderLength,
    OrderEntry,
    FirstNotDestination,
    NoCandidate,
    TableNotAccepted,
    StatesLength,
    StateOverOne,
    BufferTooShort,
    TooManyPaths,
    MalformedLsa,
    WrongChecksum,
    UnusableBandwidth,
    UnusableSubTlvs,
}

// 01, Refusals: why a call refuses, and where that points. What a call returns is a `Result` with this for its error: its answer has the number of the fault
// and this "at", or 0 and, where a buffer was written, how many of its elements (specs/Outcome.antt, answer_of and tested).
#[derive(Clone, Copy, Debug, PartialEq, Eq)]
pub struct Refusal {
    pub fault: Fault,
    pub at: usize,
}

// 01, Refusals: the number, 0 for a success, and where it points: what a result comes to for those who want it as two numbers, as requests and answers in text
// do.
#[derive(Clone, Copy, Debug, PartialEq, Eq)]
pub struct Answer {
    pub number: u8,
    pub at: usize,
}

impl Answer {
    // That of a call that writes to a buffer.
    pub fn of(written: Result<usize, Refusal>) -> Answer
        ensures { result ≡ answer_of written }
    {
        match written {
            Ok(at) => Answer { number: 0, at },
            Err(refusal) => refusal.answer(),
        }
    }

    // That of a call that writes to none.
    pub fn of_test<T: Drop>(returned: Result<T, Refusal>) -> Answer
        ensures { result ≡ tested returned }
    {
        match returned {
            Ok(_) => Answer { number: 0, at: 0 },
            Err(refusal) => refusal.answer(),
        }
    }
}

impl Refusal {
    // Its number, and where it points.
    pub fn answer(self) -> Answer
        ensures { result ≡ refused self }
    {
        Answer {
            number: self.fault.number(),
            at: self.at,
        }
    }
}

impl Fault {
    // The number of 01 and 02.
    pub fn number(self) -> u8
        ensures { result ≡ number_of self }
    {
        match self {
            Fault::StreamCutShort => 1,
            Fault::UnknownKind => 2,
            Fault::RouterListedBefore => 3,
            Fault::TooManyRouters => 4,
            Fault::PlaceNotListed => 5,
            Fault::LinkToItself => 6,
            Fault::CostZero => 7,
            Fault::PairLinkedAlready => 8,
            Fault::TooManyLinks => 9,
            Fault::TooManyNeighbours => 10,
            Fault::ByteAfterEnd => 11,
            Fault::NoRouter => 12,
            Fault::UnsoundTopology => 14,
            Fault::NoSuchPlace => 15,
            Fault::LimitOutOfRange => 16,
            Fault::OrderLength => 17,
            Fault::OrderEntry => 18,
            Fault::FirstNotDestination => 19,
            Fault::NoCandidate => 20,
            Fault::TableNotAccepted => 21,
            Fault::StatesLength => 22,
            Fault::StateOverOne => 23,
            Fault::BufferTooShort => 24,
            Fault::TooManyPaths => 25,
            Fault::MalformedLsa => 26,
            Fault::WrongChecksum => 27,
            Fault::UnusableBandwidth => 28,
            Fault::UnusableSubTlvs => 29,
        }
    }

    // The refusal that points there.
    pub fn at(self, at: usize) -> Refusal
        ensures { result ≡ record { fault = self; at = at } }
    {
        Refusal { fault: self, at }
    }
}

impl Topology {
    // No router and no link: all zeros but for the next-hop limit.
    #[tactic(auto, unfolding(crate::specs::Topology::held, crate::specs::Topology::padded, crate::specs::Topology::no_link))]
    pub fn empty(limit: u8) -> Self
        ensures { result ≡ held record { ids = []; links = []; limit = limit } }
    {
        let none = Link {
            first: Place(0),
            second: Place(0),
            cost: 0,
            back: 0,
        };
        Topology {
            routers: 0,
            links: 0,
            limit,
            id: [0; ROUTERS],
            link: [none; LINKS],
        }
    }
}

impl Place {
    // The place as an index.
    pub fn index(self) -> usize
        ensures { result ≡ self.0 }
    {
        self.0 as usize
    }
}
