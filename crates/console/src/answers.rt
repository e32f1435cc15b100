// A line is answered: what is held from then on, and the line that answers, in a lent buffer.
ghost use Rattle.std.specs.Prelude.{◌≡◌, ◌≤◌, IfSome, length};
ghost use Rattle.console_held.specs.Questions.{most_line, most_room};
ghost use Rattle.console_held.specs.Inner.{InLimits, StepServed, held_in, question_in};
ghost use Rattle.console_replies.specs.Calls.{lent, most_answer};
ghost use Rattle.console.specs.Answers.{response_to};
ghost use Rattle.console.specs.Session.{answered};
ghost use Rattle.console.specs.Inner.{asked_answer, line_given, Told};

use super::requests;
use super::requests::Request;
use console_held::unchecked::asked::ROOM;
use console_held::unchecked::changes;
use console_held::unchecked::holding::Holding;
use console_held::unchecked::query::Query;
use console_held::unchecked::reply::Reply;
use console_replies::unchecked::{putting, replies};

// What a line asks is done.
fn serve<'a>(asked: Option<(Request, Query)>, held: &mut Holding, buffer: &'a mut [u8]) -> Reply<'a>
    requires within { IfSome asked (λ a. InLimits (question_in a.1)) }
    requires filled { buffer.old ≡ lent most_room }
    ensures { StepServed (asked_answer asked.entry (held_in held.old)) (held_in held.new) result }
{
    match asked {
        Some((Request::Changes(change), query)) => changes::change_by(change, held, query),
        Some((Request::Replies(call), query)) => replies::reply_by(
            call,
            &held.topology,
            held.table(),
            query,
            buffer,
        ),
        None => Reply::Error,
    }
}

// Answers a line that is not too long, and says how many bytes the line that answers has. The bytes of its fields stand where the answer is put after them.
fn respond_to(held: &mut Holding, line: &[u8], out: &mut [u8]) -> usize
    requires { (length line.now ≤ most_line) × (most_answer ≤ length out.old) }
    ensures { Told (response_to (held_in held.old) line.now) (held_in held.new) result out.new }
{
    let mut buffer: [u8; ROOM] = text::filled(170);
    let reply = serve(requests::asked(line, out), held, &mut buffer);
    putting::put_reply(reply, out)
}

// Answers a line, none where it is too long.
pub(crate) fn respond(held: &mut Holding, line: Option<&[u8]>, out: &mut [u8]) -> usize
    requires { IfSome line (λ l. length l.now ≤ most_line) × (most_answer ≤ length out.old) }
    ensures { Told (answered (held_in held.old) (line_given line.entry)) (held_in held.new) result out.new }
{
    match line {
        Some(line) => respond_to(held, line, out),
        None => putting::put_reply(Reply::Error, out),
    }
}
