// What the fields of a line hold, by their kinds.
ghost use Rattle.std.specs.Prelude.{◌≡◌, ◌≤◌, IfSome, length, map, eqb, position, option_map};
ghost use Rattle.text.specs.Hex.{none};
ghost use Rattle.text.specs.Numbers.{number};
ghost use Rattle.console_held.specs.Questions.{most_line, most_table, mode_field, bytes_field, text_of_lem, zero_text, shortest_word, mode_named, question_of};
ghost use Rattle.console_held.specs.Inner.{Decoded, InLimits, question_in};

use super::kind;
use super::kind::Letter;
pub use super::query::Query;
use order::Mode;
use text::unchecked::{fields, hex};
use topology::Place;

// The limits of specs/Questions.antt. Two digits of a line stand for a byte.
pub const BYTE: usize = 255;

pub const LINE: usize = 262144;

pub const BYTES: usize = LINE / 2;

pub const ROOM: usize = 65536;

// Room for the bytes of a table.
pub fn room_for_bytes() -> [u8; BYTES]
    ensures { most_table ≡ length result }
{
    text::filled(0)
}

// The place of a kind among kinds, each by its letter.
fn place_of<K: Letter>(kinds: &[K], sort: u8) -> Option<usize>
    ensures { result ≡ position (λ k. eqb (K.letter k) sort) kinds.now }
{
    kinds.iter().position(|k| k.letter() == sort)
}

// The field of this kind, where these are the kinds of the fields after the first word; what is absent if none is.
fn text_of<'a, K: Letter>(line: &'a [u8], kinds: &[K], sort: u8, absent: &'a [u8]) -> &'a [u8]
    ensures { result.now ≡ text_of_lem sort (map K.letter kinds.now) line.now absent.now }
{
    match place_of(kinds, sort) {
        Some(at) => fields::field(line, at + 1),
        None => absent,
    }
}

// The number in the field of this kind, 0 if none is.
fn number_in<K: Letter>(line: &[u8], kinds: &[K], sort: u8, most: usize) -> Option<usize>
    requires { most ≤ most_line }
    ensures { result ≡ number most (text_of_lem sort (map K.letter kinds.now) line.now zero_text) }
{
    fields::number(text_of(line, kinds, sort, b"0"), most)
}

fn mode_of(word: &[u8]) -> Option<Mode>
    ensures { result ≡ mode_named word.now }
{
    if word == b"shortest".as_slice() {
        Some(Mode::ShortestPath)
    } else if word == b"free".as_slice() {
        Some(Mode::Free)
    } else {
        None
    }
}

// MODE, shortest-path mode if no field is one.
fn mode_in<K: Letter>(line: &[u8], kinds: &[K]) -> Option<Mode>
    ensures { result ≡ mode_named (text_of_lem mode_field (map K.letter kinds.now) line.now shortest_word) }
{
    mode_of(text_of(line, kinds, kind::MODE, b"shortest"))
}

// Puts the bytes of the field that holds some at the start of out, and answers how many they are: none if no field does.
fn bytes_in<K: Letter>(line: &[u8], kinds: &[K], out: &mut [u8]) -> Option<usize>
    requires { (length line.now ≤ most_line) × (most_table ≤ length out.old) }
    ensures { Decoded (text_of_lem bytes_field (map K.letter kinds.now) line.now none) result out.new }
{
    hex::bytes(text_of(line, kinds, kind::BYTES, b"-"), out)
}

// What the fields hold, where these are their kinds; bytes are put at the start of a buffer.
pub fn query_in<'a, K: Letter>(line: &[u8], kinds: &[K], bytes: &'a mut [u8]) -> Option<Query<'a>>
    requires { (length line.now ≤ most_line) × (most_table ≤ length bytes.old) }
    ensures says { option_map question_in result ≡ question_of (map K.letter kinds.now) line.now }
    ensures within { IfSome result (λ q. InLimits (question_in q)) }
{
    let place = number_in(line, kinds, kind::PLACE, BYTE)?;
    let hops = number_in(line, kinds, kind::HOPS, BYTE)?;
    let mode = mode_in(line, kinds)?;
    let room = number_in(line, kinds, kind::ROOM, ROOM)?;
    let count = bytes_in(line, kinds, bytes)?;
    Some(Query {
        place: Place(place as u8),
        hops: hops as u8,
        mode,
        room,
        bytes: &bytes[..count],
    })
}
