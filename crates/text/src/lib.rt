// The text of requests and answers, for the programs of this repository.
#![tactic(auto)]

ghost use Rattle.std.specs.Prelude.{◌≡◌, length};
ghost use Rattle.text.specs.Room.{bytes_of_one};

pub mod unchecked;

// Room for what is read, or for what is put. An array that comes out of a function is known by what the function ensures, and not by all its elements.
#[tactic(auto, unfolding(crate::specs::Room::bytes_of_one))]
pub fn filled<const N: usize>(byte: u8) -> [u8; N]
    ensures long { length result ≡ N }
    ensures bytes { result ≡ bytes_of_one N byte }
{
    [byte; N]
}
