// The numbers of the line that answers `te`.
ghost use Rattle.std.specs.Prelude.{not, ◌≡◌, T};
ghost use Rattle.std.specs.Float.{binary32};
ghost use Rattle.std.specs.Float.Ieee.{is_nan, to_bits};
ghost use Rattle.te.specs.Cost.{costing_of};
ghost use Rattle.console_replies.specs.Calls.{cost_numbers};

use te::LinkCost;
use topology::Refusal;

// The 32-bit pattern of a bandwidth, which is no NaN.
fn pattern(bandwidth: f32) -> usize
    requires { T (not (is_nan bandwidth)) }
    ensures { result ≡ to_bits binary32 bandwidth }
{
    bandwidth.to_bits() as usize
}

// The nine numbers.
pub(crate) fn numbers_of(cost: Result<LinkCost, Refusal>) -> [usize; 9]
    requires { T (not (is_nan (costing_of cost).link.maximum)) × T (not (is_nan (costing_of cost).link.reservable)) }
    ensures { result ≡ cost_numbers (costing_of cost) }
{
    match cost {
        Ok(LinkCost { cost, link }) => [
            0,
            0,
            cost.into(),
            link.hasmetric.into(),
            link.metric as usize,
            link.hasmaximum.into(),
            pattern(link.maximum),
            link.hasreservable.into(),
            pattern(link.reservable),
        ],
        Err(Refusal { fault, at }) => [fault.number().into(), at, 0, 0, 0, 0, 0, 0, 0],
    }
}
