// What the programs share: standard input and where they write, and for those that read a topology stream, or a file of LSAs, the line of a refusal.
#![tactic(auto)]

ghost use Rattle.std.specs.Prelude.{◌≡◌, length};
ghost use Rattle.io.specs.Counts.{IsPrefixLen};

pub mod unchecked;

// 01, Two networks by hand: at most 65,536 bytes of input are read.
pub const INPUT: usize = 65536;

// Standard input, output and error.
const STDIN: i32 = 0;

pub const STDOUT: i32 = 1;

pub const STDERR: i32 = 2;

// Room for what is read.
pub fn room_for_input() -> [u8; INPUT]
    ensures { 65536 ≡ length result }
{
    text::filled(0)
}

// Reads standard input to its end, or until the slice is full, and answers how many bytes are at its start. The rest of a longer input is not read.
// std's `Read` has no such call on a lent slice: with it this would be a loop here.
pub fn read_input(input: &mut [u8]) -> usize
    ensures { IsPrefixLen result input.new }
{
    io::read_full(STDIN, input)
}
