// Costs from bandwidth (02, #108): what a link costs by the sub-TLVs of its Link TLV's value (RFC 3630, 2.4.2 and 2.5).
#![tactic(auto)]

mod bandwidth;
mod reading;

ghost use Rattle.std.specs.Prelude.{◌≡◌};
ghost use Rattle.te.specs.Cost.{record_cost, some_cost, costing, costing_of};
ghost use Rattle.te.specs.Cost as said;
ghost use Rattle.te.specs.Theorems.{Kept};

use topology_types::{Answer, Fault, Refusal};

// A sub-TLV, one of three cases: bandwidths are in bytes per second. Its cases and their fields are 01's (Forms by place).
#[derive(Clone, Copy)]
pub enum SubTlv {
    TeMetric(u32),
    MaxBandwidth(f32),
    Reservable(f32),
}

// A link's record. Absent fields are 0. A metric, presence bools and two floats, and no Option: 01 gives it this form (Forms by place).
#[derive(Clone, Copy)]
pub struct LinkRecord {
    pub metric: u32,
    pub hasmetric: bool,
    pub hasmaximum: bool,
    pub hasreservable: bool,
    pub maximum: f32,
    pub reservable: f32,
}

// What a link costs, and its record.
#[derive(Clone, Copy)]
pub struct LinkCost {
    pub cost: u16,
    pub link: LinkRecord,
}

// What a value answers as one value: refused, cost and record are all 0.
#[derive(Clone, Copy)]
pub struct CostAnswer {
    pub answer: Answer,
    pub cost: u16,
    pub link: LinkRecord,
}

impl CostAnswer {
    pub fn of(found: Result<LinkCost, Refusal>) -> CostAnswer
        ensures { result ≡ costing_of found }
    {
        match found {
            Ok(LinkCost { cost, link }) => CostAnswer {
                answer: Answer { number: 0, at: 0 },
                cost,
                link,
            },
            Err(refusal) => CostAnswer::zeros(refusal),
        }
    }

    // The answer of a refusal, and zeros.
    #[tactic(auto, unfolding(crate::specs::Cost::refused_cost))]
    fn zeros(refusal: Refusal) -> CostAnswer
        ensures { result ≡ costing_of (Err refusal) }
    {
        let answer = refusal.answer();
        let link = LinkRecord::nothing();
        CostAnswer {
            answer,
            cost: 0,
            link,
        }
    }
}

impl LinkRecord {
    // A record of nothing.
    fn nothing() -> LinkRecord
        ensures { result ≡ said.nothing }
    {
        LinkRecord {
            metric: 0,
            hasmetric: false,
            hasmaximum: false,
            hasreservable: false,
            maximum: 0.0,
            reservable: 0.0,
        }
    }

    // The record with a sub-TLV more, which stands in the place of one of its type before.
    #[tactic(auto, unfolding(crate::specs::Cost::gathered))]
    fn with(self, s: SubTlv) -> LinkRecord
        ensures { result ≡ said.gathered self s }
    {
        match s {
            SubTlv::TeMetric(metric) => LinkRecord {
                metric,
                hasmetric: true,
                ..self
            },
            SubTlv::MaxBandwidth(maximum) => LinkRecord {
                maximum,
                hasmaximum: true,
                ..self
            },
            SubTlv::Reservable(reservable) => LinkRecord {
                reservable,
                hasreservable: true,
                ..self
            },
        }
    }

    // The cost by the record: the metric if it is in the range of costs, else by the maximum bandwidth; none where neither can be used.
    fn cost(self) -> Option<u16>
        requires { Kept self }
        ensures { result ≡ some_cost (record_cost self) }
    {
        if (1..=65535).contains(&self.metric) {
            Some(self.metric as u16)
        } else if self.hasmaximum {
            Some(bandwidth::cost_by(self.maximum))
        } else {
            None
        }
    }
}

// The cost of a link by the sub-TLVs of its Link TLV's value: refusals 28 and 29. A sub-TLV says itself where the next one begins, so the offset is no
// counter of a `for`.
pub fn cost(value: &[u8]) -> Result<LinkCost, Refusal>
    ensures { costing_of result ≡ costing value.now }
{
    let mut link = LinkRecord::nothing();
    let mut at: usize = 0;
    while at < value.len() {
        let rest = &value[at..];
        let found = reading::sub_in(rest).map_err(|fault| fault.at(at))?;
        if let Some(s) = found {
            link = link.with(s);
        }
        at += reading::span_of(rest);
    }
    let cost = link.cost().ok_or(Fault::UnusableSubTlvs.at(at))?;
    Ok(LinkCost { cost, link })
}

// The same as one value.
pub fn cost_or_zeros(value: &[u8]) -> CostAnswer
    ensures { result ≡ costing value.now }
{
    CostAnswer::of(cost(value))
}
