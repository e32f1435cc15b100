// The coverage figures of the yearly report (02, #102). Their definitions and theorems stand in specs/.
#![tactic(auto)]

ghost use Rattle.std.specs.Prelude.{◌≡◌, ◌≤◌, take};
ghost use Rattle.topology_types.specs.Limits.{most_routers};

use topology_types::{Answer, ROUTERS, Refusal};

// How many pairs of a router and another destination have two or more next hops, and how many such pairs there are; how many destinations there are and,
// by place, how many next hops the rows of each list; and the number of links. Slots that are not used are zero.
// The figures by place are an array, of which so many are used: no heap.
#[derive(Clone, Copy)]
pub struct Coverage {
    pub covered: usize,
    pub pairs: usize,
    pub destinations: usize,
    pub links: usize,
    pub listed: [usize; ROUTERS],
    ghost few: { destinations ≤ most_routers },
}

// What counting answers as one value: the answer, and the figures, all numbers zero if refused.
#[derive(Clone, Copy)]
pub struct CoverageAnswer {
    pub answer: Answer,
    pub covered: usize,
    pub pairs: usize,
    pub destinations: usize,
    pub links: usize,
    pub listed: [usize; ROUTERS],
}

impl Coverage {
    // How many next hops the rows of each destination list, by place.
    pub fn by_destination(&self) -> &[usize]
        ensures { result.now ≡ take self.now.destinations self.now.listed }
    {
        &self.listed[..self.destinations]
    }
}

impl CoverageAnswer {
    ghost use Rattle.coverage_rules.specs.Coverage.{coverage_of};

    pub fn of(counted: Result<Coverage, Refusal>) -> CoverageAnswer
        ensures { result ≡ coverage_of counted }
    {
        match counted {
            Ok(figures) => {
                let listed = figures.listed;
                CoverageAnswer {
                    answer: Answer { number: 0, at: 0 },
                    covered: figures.covered,
                    pairs: figures.pairs,
                    destinations: figures.destinations,
                    links: figures.links,
                    listed,
                }
            }
            Err(refusal) => CoverageAnswer::zeros(refusal),
        }
    }

    // The answer of a refusal, and zeros.
    #[tactic(auto, unfolding(topology_types::specs::Topology::padded))]
    fn zeros(refusal: Refusal) -> CoverageAnswer
        ensures { result ≡ coverage_of (Err refusal) }
    {
        CoverageAnswer {
            answer: refusal.answer(),
            covered: 0,
            pairs: 0,
            destinations: 0,
            links: 0,
            listed: [0; ROUTERS],
        }
    }
}
