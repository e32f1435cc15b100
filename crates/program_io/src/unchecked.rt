// For callers that have made the room.
ghost use Rattle.std.specs.Prelude.{ℕ, ◌≡◌, ◌≤◌, List, length};
ghost use Rattle.std.specs.Borrow.{Bor, MutBor};
ghost use Rattle.text.specs.Page.{Puts, Room};
ghost use Rattle.program_io.specs.Output.{refused_line};

use text::unchecked::lines::Page;
use topology_types::Answer;

// The line of a refusal.
pub fn put_refused(page: &mut Page<'_>, answer: Answer)
    requires { Room page.old 50 }
    ensures { Puts page.old (refused_line answer) page.new }
{
    page.put_word_line(b"refused", answer.number, answer.at);
}

// Has the output for what is read of standard input put into the slice, and writes it to standard output: the slice is then as one call left it. What was
// read, and what is written, no contract says.
pub fn print_by<F: Fn(&[u8], &mut [u8]) -> usize>(put: F, out: &mut [u8])
    requires callable { (input : Bor (List ℕ)) (room : MutBor (List ℕ)) → length room.now ≡ length out.old → F.pre put input room }
    requires fits { (input : Bor (List ℕ)) (room : MutBor (List ℕ)) (end : ℕ) (left : MutBor (List ℕ)) → length room.now ≡ length out.old → F.post put input room end left → end ≤ length out.old }
    ensures { (input : Bor (List ℕ)) × (room : MutBor (List ℕ)) × (end : ℕ) × (left : MutBor (List ℕ)) × (room.now ≡ out.old) × F.post put input room end left × (left.now ≡ out.new) }
{
    let mut input = super::room_for_input();
    let n = super::read_input(&mut input);
    let end = put(&input[..n], out);
    io::write_all(super::STDOUT, &out[..end]);
}
