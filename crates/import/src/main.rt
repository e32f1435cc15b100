// The import program (02, #106): takes a file of OSPF router-LSAs on standard input, at most 262,144 bytes, and writes the stream of the imported topology
// to standard output. Of a refused file nothing goes there, and one line to standard error: `refused`, number, at. A longer file is not cut: nothing goes to
// standard output, and the line is `too long`.
#![tactic(auto)]

ghost use Rattle.std.specs.Prelude.{◌≡◌, length};
ghost use Rattle.import.specs.Inner.{StreamPut};
ghost use Rattle.import.specs.Output.{Writes, ends_of};

use program_io::{STDERR, STDOUT};
use text::unchecked::lines::Page;
use topology::Refusal;

// The longest file that is imported.
const FILE: usize = 262144;

// One byte more, by which a longer one is told.
const INPUT: usize = FILE + 1;

// Room for every stream that is written, and for the line of a refusal.
const STREAM: usize = 2883;

const LINE: usize = 50;

// Room for what is read.
fn room_for_file() -> [u8; INPUT]
    ensures { 262145 ≡ length result }
{
    text::filled(0)
}

// The stream of the topology that is imported, at the start of the slice; answers how many bytes it has.
fn put_stream(file: &[u8], stream: &mut [u8]) -> Result<usize, Refusal>
    requires { length stream.old ≡ 2883 }
    ensures { StreamPut file.now result stream.new }
{
    topology::write(ospf::import(file)?, stream)
}

// What goes to standard output, or else to standard error, at the start of the slice for it; answers how many bytes.
fn put_output(file: &[u8], stream: &mut [u8], line: &mut [u8]) -> Result<usize, usize>
    requires { (length stream.old ≡ 2883) × (length line.old ≡ 50) }
    ensures { Writes file.now (ends_of result) stream.new line.new }
{
    let mut page = Page::new(line);
    if FILE < file.len() {
        page.put(b"too long\n");
        return Err(page.filled);
    }
    match put_stream(file, stream) {
        Ok(end) => Ok(end),
        Err(refusal) => {
            program_io::unchecked::put_refused(&mut page, refusal.answer());
            Err(page.filled)
        }
    }
}

// What is read and written no contract says. That the bytes are the first 262,145 of standard input, and that each text goes to its own output once, is
// read here and in `program_io`, and tried by examples/edges.
fn main() {
    let mut input = room_for_file();
    let n = program_io::read_input(&mut input);
    let mut stream: [u8; STREAM] = text::filled(0);
    let mut line: [u8; LINE] = text::filled(0);
    match put_output(&input[..n], &mut stream, &mut line) {
        Ok(end) => io::write_all(STDOUT, &stream[..end]),
        Err(end) => io::write_all(STDERR, &line[..end]),
    };
}
