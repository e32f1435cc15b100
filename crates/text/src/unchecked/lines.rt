// Lines: those of the input, gathered part by part, and those that answer, put into a lent slice.
#![tactic(auto, using(crate::proofs::Texts::lengths))]

ghost use Rattle.std.specs.Prelude.{◌≡◌, ◌+◌, ◌*◌, ◌<◌, length};
ghost use Rattle.text.specs.Hex.{hex_of, bytes_text};
ghost use Rattle.text.specs.Hex as hex;
ghost use Rattle.text.specs.Numbers.{number_text};
ghost use Rattle.text.specs.Inner.{Gathered};
ghost use Rattle.text.specs.Page.{Blank, Puts, Room};
ghost use Rattle.text.specs.Lines.{error_line, answer_text, answer_line, word_line, buffer_line};

// Of a line count bytes are in the buffer: puts a part more behind them, if it fits, and answers how many are there.
pub fn gather(buffer: &mut [u8], count: usize, part: &[u8]) -> Option<usize>
    ensures { Gathered buffer.old count part.now result buffer.new }
{
    let left = buffer.len().checked_sub(count)?;
    if left < part.len() {
        return None;
    }
    let end = count + part.len();
    buffer[count..end].copy_from_slice(part);
    Some(end)
}

// A lent slice, and how many of its bytes are filled: each text is put behind the one before.
#[derive(Drop)]
pub struct Page<'a> {
    pub bytes: &'a mut [u8],
    pub filled: usize,
}

impl<'a> Page<'a> {
    pub fn new(bytes: &'a mut [u8]) -> Page<'a>
        ensures { Blank bytes.entry result }
    {
        Page { bytes, filled: 0 }
    }

    pub fn put(&mut self, text: &[u8])
        requires { Room self.old (length text.now) }
        ensures { Puts self.old text.now self.new }
    {
        let end = self.filled + text.len();
        self.bytes[self.filled..end].copy_from_slice(text);
        self.filled = end;
    }

    // Puts a number in decimal. `write!` says what it wrote only where it is Ok, and this call has no error to answer.
    pub fn put_number(&mut self, n: usize)
        requires { Room self.old (length (number_text n)) }
        ensures { Puts self.old (number_text n) self.new }
    {
        let mut digits = [0u8; 20];
        let k = io::decimal(n as u64, &mut digits);
        self.put(&digits[..k]);
    }

    // Puts a number of one digit or two, as `put_number` would, but with no loop over its digits: listings print these by the thousand.
    pub fn put_small(&mut self, n: u8)
        requires { (n < 100) × Room self.old 2 }
        ensures { Puts self.old (number_text n) self.new }
    {
        if n < 10 {
            self.put(&[b'0' + n]);
        } else {
            self.put(&[b'0' + n / 10, b'0' + n % 10]);
        }
    }

    fn put_hex(&mut self, bytes: &[u8])
        requires { Room self.old (2 * length bytes.now) }
        ensures { Puts self.old (hex_of bytes.now) self.new }
    {
        let past = self.filled + 2 * bytes.len();
        encode(bytes, &mut self.bytes[self.filled..past]);
        self.filled = past;
    }

    // Puts bytes as a field.
    fn put_bytes(&mut self, bytes: &[u8])
        requires { Room self.old (2 * length bytes.now + 1) }
        ensures { Puts self.old (bytes_text bytes.now) self.new }
    {
        if bytes.is_empty() {
            self.put(b"-");
        } else {
            self.put_hex(bytes);
        }
    }

    // `error`
    #[tactic(auto, unfolding(crate::specs::Lines::error_line))]
    pub fn put_error(&mut self)
        requires { Room self.old 6 }
        ensures { Puts self.old error_line self.new }
    {
        self.put(b"error\n");
    }

    // Puts two numbers, one space between.
    pub fn put_pair(&mut self, first: usize, second: usize)
        requires { Room self.old 41 }
        ensures { Puts self.old (answer_text first second) self.new }
    {
        self.put_number(first);
        self.put(b" ");
        self.put_number(second);
    }

    // NUMBER AT
    pub fn put_answer_line(&mut self, number: u8, at: usize)
        requires { Room self.old 42 }
        ensures { Puts self.old (answer_line number at) self.new }
    {
        self.put_pair(number.into(), at);
        self.put(b"\n");
    }

    // A word, NUMBER AT
    pub fn put_word_line(&mut self, word: &[u8], number: u8, at: usize)
        requires { Room self.old (length word.now + 43) }
        ensures { Puts self.old (word_line word.now number at) self.new }
    {
        self.put(word);
        self.put(b" ");
        self.put_answer_line(number, at);
    }

    // NUMBER AT BUFFER
    pub fn put_buffer_line(&mut self, number: u8, at: usize, buffer: &[u8])
        requires { Room self.old (44 + 2 * length buffer.now) }
        ensures { Puts self.old (buffer_line number at buffer.now) self.new }
    {
        self.put_pair(number.into(), at);
        self.put(b" ");
        self.put_bytes(buffer);
        self.put(b"\n");
    }
}

// The digit that stands for a number below 16.
fn digit(n: u8) -> u8
    requires { n < 16 }
    ensures { result ≡ hex.digit n }
{
    if n < 10 { b'0' + n } else { b'a' - 10 + n }
}

// Two digits for each byte. An index loop, as in `decode` of hex: with a text put for each byte it took six times the instructions.
fn encode(bytes: &[u8], out: &mut [u8])
    requires { length out.old ≡ 2 * length bytes.now }
    ensures { out.new ≡ hex_of bytes.now }
{
    for i in 0..bytes.len() {
        let b = bytes[i];
        out[2 * i] = digit(b / 16);
        out[2 * i + 1] = digit(b % 16);
    }
}
