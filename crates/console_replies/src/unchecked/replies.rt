// The requests that leave what is held as it is.
ghost use Rattle.std.specs.Prelude.{◌≡◌, ◌≤◌, length};
ghost use Rattle.std.specs.Fn.{FnOnceReturnsAtMut};
ghost use Rattle.topology_types.specs.Outcome.{answer_of};
ghost use Rattle.forwarding_rules.specs.Calls.{walk_says};
ghost use Rattle.console_held.specs.Questions.{most_room};
ghost use Rattle.console_held.specs.Inner.{Replies, FromResult, question_in};
ghost use Rattle.console_replies.specs.Calls.{walk_text, lent};
ghost use Rattle.console_replies.specs.Inner.{reply_to};

use super::figures;
use console_held::unchecked::query::Query;
use console_held::unchecked::reply::{Fate, Reply};
use forwarding::Walk;
use topology::{Refusal, Topology};
use topology_types::Answer;

#[derive(Clone, Copy)]
pub enum Call {
    Write,
    Order,
    CheckOrder,
    Fill,
    CheckTable,
    Greatest,
    Walk,
    Listing,
    OldStream,
    Paths,
    Coverage,
    Te,
}

// Lends the first ROOM bytes of the buffer to a call: what it answers, and these bytes as it leaves them.
#[tactic(auto, unfolding(console_held::specs::Inner::FromResult))]
fn leaves<'a, F: FnOnce(&mut [u8]) -> Result<usize, Refusal>>(
    room: usize,
    buffer: &'a mut [u8],
    call: F,
) -> Reply<'a>
    requires room { room ≤ most_room }
    requires filled { buffer.old ≡ lent most_room }
    requires calls { F.IsAlwaysCallable call }
    ensures left { (answer : _) × (left : _) × (result ≡ Reply.Leaves (answer_of answer) left) × FnOnceReturnsAtMut F.FnOnce call (lent room) answer left.now × (length left.now ≡ room) }
    ensures returned { FromResult result }
{
    let out = &mut buffer[..room];
    let answer = call(out);
    Reply::Leaves(Answer::of(answer), out)
}

// What a walk says.
#[tactic(auto, unfolding(console_held::specs::Inner::FromResult))]
fn walk_reply(walked: Result<Walk, Refusal>) -> Reply<'static>
    ensures says { Replies (walk_text (walk_says walked)) result }
    ensures returned { FromResult result }
{
    match walked {
        Ok(Walk::Delivered(p)) => Reply::Finds(Fate::Delivered, p),
        Ok(Walk::Dropped(p)) => Reply::Finds(Fate::Dropped, p),
        Err(refusal) => Reply::Refused(refusal.answer()),
    }
}

#[tactic(auto, unfolding(console_held::specs::Inner::FromResult))]
pub fn reply_by<'a>(
    call: Call,
    t: &Topology,
    table: &[u8],
    q: Query,
    buffer: &'a mut [u8],
) -> Reply<'a>
    requires room { q.room ≤ most_room }
    requires filled { buffer.old ≡ lent most_room }
    ensures says { Replies (reply_to call t.now table.now (question_in q.entry)) result }
    ensures returned { FromResult result }
{
    let t = *t;
    let Query {
        place,
        mode,
        room,
        bytes,
        ..
    } = q;
    match call {
        Call::Write => leaves(room, buffer, |out| topology::write(t, out)),
        Call::Order => leaves(room, buffer, |out| order::build(t, place, mode, out)),
        Call::CheckOrder => Reply::Says(Answer::of_test(order::check(t, place, mode, bytes))),
        Call::Fill => leaves(room, buffer, |out| table::fill(t, place, bytes, out)),
        Call::CheckTable => Reply::Says(Answer::of_test(table::check(t, table))),
        Call::Greatest => leaves(room, buffer, |out| forwarding::greatest_hops(t, table, out)),
        Call::Walk => walk_reply(forwarding::walk(t, table, place, bytes)),
        Call::Listing => leaves(room, buffer, |out| report::listing(t, place, out)),
        Call::OldStream => leaves(room, buffer, |out| topology::with_old_limit(bytes, out)),
        Call::Paths => leaves(room, buffer, |out| paths::write(t, table, place, out)),
        Call::Coverage => figures::cover(t, buffer),
        Call::Te => figures::link_cost(bytes, buffer),
    }
}
