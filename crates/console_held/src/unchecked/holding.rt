// What is held.
use super::asked;
use super::asked::BYTES;
pub use super::changes::{import, load_table, read};
pub use super::reply::{Fate, Reply};
use forwarding::Packet;
use std::marker::Model;
use topology::{Place, Topology};

// The start of a buffer: so many bytes.
#[derive(Clone, Copy)]
struct Table {
    buffer: [u8; BYTES],
    size: usize,
}

impl Model for Table {
    ghost use Rattle.std.specs.Prelude.{ℕ, List, ◌≤◌};
    ghost use Rattle.console_held.specs.Questions.{most_table};

    ghost Value = { ℕ × List ℕ };

    ghost view = { λ t. (t.size, t.buffer) };

    ghost inverse = { λ v. record { buffer = v.1; size = v.0 } };

    ghost invariant = { λ t. t.size ≤ most_table };
}

impl Table {
    ghost use Rattle.std.specs.Prelude.{◌≡◌, ◌≤◌, take, length};
    ghost use Rattle.console_held.specs.Questions.{most_table};

    fn bytes(&self) -> &[u8]
        ensures held { result.now ≡ take self.now.0 self.now.1 }
        ensures few { length result.now ≤ most_table }
    {
        &self.buffer[..self.size]
    }

    fn put(&mut self, bytes: &[u8])
        requires { length bytes.now ≤ most_table }
        ensures { take self.new.0 self.new.1 ≡ bytes.now }
    {
        let n = bytes.len();
        self.buffer[..n].copy_from_slice(bytes);
        self.size = n;
    }
}

// A topology, the bytes of a table and a packet.
#[derive(Clone, Copy)]
pub struct Holding {
    pub topology: Topology,
    held: Table,
    pub packet: Packet,
}

impl Holding {
    ghost use Rattle.std.specs.Prelude.{◌≡◌, ◌≤◌, [], length};
    ghost use Rattle.topology_types.specs.Topology.{zeros};
    ghost use Rattle.console_held.specs.Questions.{most_table};
    ghost use Rattle.console_held.specs.Inner.{held_in};

    // What is held at first: a topology of all zeros, no bytes and the packet (0, 0).
    pub fn new() -> Self
        ensures { held_in result ≡ record { topology = zeros; table = []; packet = record { station = 0; hops = 0 } } }
    {
        Holding {
            topology: Topology::empty(0),
            held: Table {
                buffer: asked::room_for_bytes(),
                size: 0,
            },
            packet: Packet {
                station: Place(0),
                hops: 0,
            },
        }
    }

    #[tactic(auto, unfolding(crate::specs::Inner::held_in))]
    pub fn table(&self) -> &[u8]
        ensures held { result.now ≡ (held_in self.now).table }
        ensures few { length (held_in self.now).table ≤ most_table }
    {
        self.held.bytes()
    }

    #[tactic(auto, unfolding(crate::specs::Inner::held_in))]
    pub fn load(&mut self, table: &[u8])
        requires { length table.now ≤ most_table }
        ensures { held_in self.new ≡ record (held_in self.old) { table = table.now } }
    {
        self.held.put(table);
    }
}
