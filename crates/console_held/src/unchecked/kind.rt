// The kinds of fields (specs/Questions.antt), each a letter.
ghost use Rattle.std.specs.Prelude.{ℕ, ◌≡◌};
ghost use Rattle.console_held.specs.Kinds as said;

pub const PLACE: u8 = b'p';

pub const HOPS: u8 = b'h';

pub const MODE: u8 = b'm';

pub const ROOM: u8 = b'r';

pub const BYTES: u8 = b'b';

#[derive(Clone, Copy, PartialEq, Eq)]
pub enum Kind {
    Place,
    Hops,
    Mode,
    Room,
    Bytes,
}

// What stands for a letter: a kind, or the letter itself, which may be that of no kind.
pub trait Letter {
    ghost letter: { Self → ℕ };

    fn letter(&self) -> u8
        ensures { result ≡ letter self.now };
}

impl Letter for Kind {
    ghost letter = { said.letter };

    #[tactic(auto, unfolding(crate::specs::Kinds::letter))]
    fn letter(&self) -> u8 {
        match self {
            Kind::Place => PLACE,
            Kind::Hops => HOPS,
            Kind::Mode => MODE,
            Kind::Room => ROOM,
            Kind::Bytes => BYTES,
        }
    }
}

impl Letter for u8 {
    ghost letter = { λ n. n };

    fn letter(&self) -> u8 {
        *self
    }
}
