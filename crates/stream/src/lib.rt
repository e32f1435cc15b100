// Reading a topology stream (01, Topology stream).
#![tactic(auto)]

mod bytes;
mod reader;
mod tables;
pub mod unchecked;

ghost use Rattle.std.specs.Prelude.{◌≡◌};
ghost use Rattle.stream_rules.specs.Reading.{reading_of, reading};

use reader::Reader;
pub use stream_rules::{Reading, Record};
use topology_types::{Refusal, Topology};
use unchecked::Listing;

// Reads a topology stream: refusals 1 to 12 and 16.
pub fn read(stream: &[u8]) -> Result<Topology, Refusal>
    ensures { reading_of result ≡ reading stream.now }
{
    let mut listing = Listing::new();
    let mut reader = Reader { stream, at: 0 };
    loop {
        let at = reader.at;
        let record = reader.next_record().map_err(|fault| fault.at(at))?;
        if let Record::End = record {
            return listing.ended(at, stream.len());
        }
        listing.take(record).map_err(|fault| fault.at(at))?;
    }
}

// The same as one value: a refused reading returns the topology of all zeros.
pub fn read_or_zeros(stream: &[u8]) -> Reading
    ensures { result ≡ reading stream.now }
{
    Reading::of(read(stream))
}
