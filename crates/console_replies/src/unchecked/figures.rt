// Requests that answer with numbers, put into the buffer as a line.
ghost use Rattle.std.specs.Prelude.{◌≡◌, ◌≤◌, ◌+◌, ◌++◌, length};
ghost use Rattle.text.specs.Fields.{space};
ghost use Rattle.text.specs.Inner.{Put};
ghost use Rattle.text.specs.Page.{Puts, Room};
ghost use Rattle.coverage_rules.specs.Coverage.{coverage, figures_of};
ghost use Rattle.coverage_rules.specs.Inner.{most_text};
ghost use Rattle.coverage_rules.specs.Printed.{fractions_text};
ghost use Rattle.te.specs.Cost.{costing};
ghost use Rattle.console_held.specs.Questions.{most_room};
ghost use Rattle.console_held.specs.Inner.{Replies, FromResult};
ghost use Rattle.console_replies.specs.Calls.{lent, coverage_line, cost_line};
ghost use Rattle.console_replies.specs.Inner.{zeros_text};

use super::{costs, putting};
use console_held::unchecked::reply::Reply;
use coverage_rules::Coverage;
use text::unchecked::lines::Page;
use topology::Topology;

// Puts `0 0` and the figures, with a space behind each number.
fn put_figures(page: &mut Page<'_>, figures: &Coverage)
    requires { Room page.old (4 + most_text) }
    ensures { Puts page.old (zeros_text ++ fractions_text space (figures_of figures.now)) page.new }
{
    page.put(b"0 0 ");
    coverage_counts::unchecked::put_coverage(figures, page, b' ');
}

// The same at the start of out, and how many bytes that is.
fn figures_in(out: &mut [u8], figures: &Coverage) -> usize
    requires { most_room ≤ length out.old }
    ensures { Put out.old 0 (zeros_text ++ fractions_text space (figures_of figures.now)) result out.new }
{
    let mut page = Page::new(out);
    put_figures(&mut page, figures);
    page.filled
}

// `coverage`: the last space is left out.
#[tactic(auto, unfolding(console_held::specs::Inner::FromResult))]
pub(crate) fn cover<'a>(t: Topology, buffer: &'a mut [u8]) -> Reply<'a>
    requires { buffer.old ≡ lent most_room }
    ensures says { Replies (coverage_line (coverage t)) result }
    ensures returned { FromResult result }
{
    match report::coverage(t) {
        Ok(figures) => {
            let end = figures_in(buffer, &figures);
            Reply::Line(&buffer[..end - 1])
        }
        Err(refusal) => Reply::Says(refusal.answer()),
    }
}

// `te VALUE`
#[tactic(auto, unfolding(console_held::specs::Inner::FromResult))]
pub(crate) fn link_cost<'a>(value: &[u8], buffer: &'a mut [u8]) -> Reply<'a>
    requires { buffer.old ≡ lent most_room }
    ensures says { Replies (cost_line (costing value.now)) result }
    ensures returned { FromResult result }
{
    let numbers = costs::numbers_of(te::cost(value));
    let end = putting::put_numbers(buffer, &numbers);
    Reply::Line(&buffer[..end])
}
