// What the console holds, and the line that has not ended.
ghost use Rattle.std.specs.Prelude.{◌≡◌, ◌≤◌, IfSome, length};
ghost use Rattle.topology_types.specs.Topology.{zeros};
ghost use Rattle.console_held.specs.Questions.{most_line};
ghost use Rattle.console.specs.Inner.{line_gathered, line_given, InLine};

use super::answers;
use console_held::unchecked::asked::LINE;
use console_held::unchecked::holding::Holding;
use console_replies::unchecked::putting;
use program_io::STDOUT;
use std::marker::Model;
use text::unchecked::{fields, lines};

// Of the line as many bytes have come, which are the start of the buffer; none where they are too many.
#[derive(Drop)]
pub struct Session {
    held: Holding,
    line: [u8; LINE],
    count: Option<usize>,
}

impl Model for Session {
    ghost use Rattle.std.specs.Prelude.{◌≡◌, length};
    ghost use Rattle.console_held.specs.Questions.{most_line};
    ghost use Rattle.console_held.specs.Inner.{held_in};
    ghost use Rattle.console.specs.Session.{State};
    ghost use Rattle.console.specs.Inner.{line_gathered, InLine};

    ghost Value = { State };

    ghost view = { λ s. record { held = held_in s.held; line = line_gathered s.line s.count } };

    ghost invariant = { λ s. (length s.line ≡ most_line) × InLine s.count };
}

// The line of which so many bytes have come, none where they are too many.
fn gathered(line: &[u8], count: Option<usize>) -> Option<&[u8]>
    requires { (length line.now ≡ most_line) × InLine count }
    ensures { (line_given result ≡ line_gathered line.now count) × IfSome result (λ l. length l.now ≤ most_line) }
{
    Some(&line[..count?])
}

impl Session {
    ghost use Rattle.std.specs.Prelude.{◌≡◌, []};
    ghost use Rattle.console_held.specs.Questions.{most_line};
    ghost use Rattle.console.specs.Session.{some, begun, line_ends, part_grows, session_after};

    // A topology of all zeros, no table and the packet (0, 0), and no byte of a line.
    pub fn new() -> Self
        ensures { result ≡ record { held = record { topology = zeros; table = []; packet = record { station = 0; hops = 0 } }; line = some [] } }
    {
        Session {
            held: Holding::new(),
            line: text::filled(0),
            count: Some(0),
        }
    }

    // Whether the line has a byte, or is too long.
    pub fn has_begun(&self) -> bool
        ensures { result ≡ begun self.now.line }
    {
        match self.count {
            Some(n) => n > 0,
            None => true,
        }
    }

    // A part more of the line.
    fn gather(&mut self, part: &[u8])
        ensures { self.new ≡ part_grows most_line part.now self.old }
    {
        self.count = match self.count {
            Some(n) => lines::gather(&mut self.line, n, part),
            None => None,
        };
    }

    // Answers the line, and says whether the answer was written.
    pub fn answer(&mut self) -> bool
        ensures { self.new ≡ line_ends self.old }
    {
        let mut out = putting::room_for_answer();
        let n = answers::respond(&mut self.held, gathered(&self.line, self.count), &mut out);
        self.count = Some(0);
        io::write_all(STDOUT, &out[..n])
    }

    // Takes a text, and says whether the last answer was written.
    pub fn take(&mut self, text: &[u8]) -> bool
        ensures { self.new ≡ session_after most_line text.now self.old }
    {
        let mut is_written = true;
        let mut rest = text;
        // Part by part, up to the next newline: a byte at a time took long lines twice the time. A part says itself where the next one begins.
        loop {
            let n = fields::width(rest, b'\n');
            self.gather(&rest[..n]);
            if rest.len() <= n {
                return is_written;
            }
            is_written = self.answer();
            rest = &rest[n + 1..];
        }
    }
}
