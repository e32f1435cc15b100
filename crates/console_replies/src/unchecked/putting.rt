// The line that a reply stands for, and a line of numbers.
ghost use Rattle.std.specs.Prelude.{[], ◌∷◌, ◌++◌, map, ◌≡◌, ◌+◌, ◌*◌, ◌≤◌, length};
ghost use Rattle.text.specs.Inner.{Put};
ghost use Rattle.text.specs.Page.{Puts, Room};
ghost use Rattle.text.specs.Lines.{newline};
ghost use Rattle.text.specs.Numbers.{number_text};
ghost use Rattle.listing_rules.specs.Listing.{spaced};
ghost use Rattle.forwarding_rules.specs.Calls.{packet_in};
ghost use Rattle.console_held.specs.Questions.{most_room};
ghost use Rattle.console_held.specs.Requests.{packet_line};
ghost use Rattle.console_held.specs.Inner.{fate_word, reply_text, room_of};
ghost use Rattle.console_replies.specs.Calls.{most_answer};

use console_held::unchecked::asked::ROOM;
use console_held::unchecked::reply::{Fate, Reply};
use forwarding::Packet;
use text::unchecked::lines::Page;

// The limit of specs/Calls.antt.
pub const ANSWER: usize = 2 * ROOM + 64;

// Room for a line that answers.
pub fn room_for_answer() -> [u8; ANSWER]
    ensures { most_answer ≡ length result }
{
    text::filled(0)
}

// Puts numbers, one space between.
fn put_spaced(page: &mut Page<'_>, numbers: &[usize])
    requires { (1 ≤ length numbers.now) × Room page.old (21 * length numbers.now) }
    ensures { Puts page.old (spaced (map number_text numbers.now)) page.new }
{
    page.put_number(numbers[0]);
    for number in &numbers[1..] {
        page.put(b" ");
        page.put_number(*number);
    }
}

// Puts numbers, one space between, at the start of out, and answers how many bytes that is. There is room for 20 digits and a space each.
pub fn put_numbers(out: &mut [u8], numbers: &[usize]) -> usize
    requires { (1 ≤ length numbers.now) × (21 * length numbers.now ≤ length out.old) }
    ensures { Put out.old 0 (spaced (map number_text numbers.now)) result out.new }
{
    let mut page = Page::new(out);
    put_spaced(&mut page, numbers);
    page.filled
}

// Puts a word and a packet.
fn put_packet(page: &mut Page<'_>, word: &[u8], packet: Packet)
    requires { Room page.old (length word.now + 43) }
    ensures { Puts page.old (packet_line word.now (packet_in packet)) page.new }
{
    page.put_word_line(word, packet.station.0, packet.hops.into());
}

// Puts what became of a packet, and the packet.
fn put_found(page: &mut Page<'_>, fate: Fate, packet: Packet)
    requires { Room page.old 52 }
    ensures { Puts page.old (packet_line (fate_word fate) (packet_in packet)) page.new }
{
    match fate {
        Fate::Set => put_packet(page, b"set", packet),
        Fate::Delivered => put_packet(page, b"delivered", packet),
        Fate::Moved => put_packet(page, b"moved", packet),
        Fate::Dropped => put_packet(page, b"dropped", packet),
    }
}

// Puts a text and the line's end.
fn put_line(page: &mut Page<'_>, text: &[u8])
    requires { Room page.old (length text.now + 1) }
    ensures { Puts page.old (text.now ++ (newline ∷ [])) page.new }
{
    page.put(text);
    page.put(b"\n");
}

// Puts what a reply stands for.
fn put_text(reply: Reply, page: &mut Page<'_>)
    requires { (room_of reply ≤ most_room) × Room page.old most_answer }
    ensures { (length (reply_text reply.entry) ≤ most_answer) × Puts page.old (reply_text reply.entry) page.new }
{
    match reply {
        Reply::Error => page.put_error(),
        Reply::Says(answer) => page.put_answer_line(answer.number, answer.at),
        Reply::Leaves(answer, buffer) => page.put_buffer_line(answer.number, answer.at, buffer),
        Reply::Line(text) => put_line(page, text),
        Reply::Finds(fate, packet) => put_found(page, fate, packet),
        Reply::Refused(answer) => page.put_word_line(b"refused", answer.number, answer.at),
    }
}

// Puts the line at the start of out, and answers how many bytes it has.
pub fn put_reply(reply: Reply, out: &mut [u8]) -> usize
    requires { (room_of reply ≤ most_room) × (most_answer ≤ length out.old) }
    ensures { (length (reply_text reply.entry) ≤ most_answer) × Put out.old 0 (reply_text reply.entry) result out.new }
{
    let mut page = Page::new(out);
    put_text(reply, &mut page);
    page.filled
}
