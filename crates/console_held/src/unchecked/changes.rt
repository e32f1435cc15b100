// The requests that change what is held.
ghost use Rattle.std.specs.Prelude.{◌≡◌, ◌≤◌, length};
ghost use Rattle.stream_rules.specs.Reading.{reading_of};
ghost use Rattle.forwarding_rules.specs.Calls.{packet_in, hop_says};
ghost use Rattle.forwarding_rules.specs.Lent.{setting_packet, hopping_packet};
ghost use Rattle.console_held.specs.Questions.{most_table};
ghost use Rattle.console_held.specs.Requests.{hop_text, taken_answer, set_answer, hop_answer, read_by, import_by, load_by};
ghost use Rattle.console_held.specs.Inner.{Replies, StepServed, FromResult, held_in, question_in, room_of, change_to};

use super::holding::Holding;
use super::query::Query;
use super::reply::{Fate, Reply};
use forwarding::{Hop, Packet};
use stream_rules::Reading;
use topology::{Place, Refusal, Topology};
use topology_types::Answer;

#[derive(Clone, Copy)]
pub enum Change {
    Topology,
    Import,
    LoadTable,
    LoadPacket,
    Set,
    Hop,
}

// What a call returned is held beside the table and the packet.
#[tactic(auto, unfolding(crate::specs::Inner::room_of))]
fn hold(held: &mut Holding, read: Result<Topology, Refusal>) -> Reply<'static>
    ensures served { StepServed (taken_answer (held_in held.old) (reading_of read)) (held_in held.new) result }
    ensures plain { room_of result ≡ 0 }
    ensures returned { FromResult result }
{
    let reading = Reading::of(read);
    held.topology = reading.topology;
    Reply::Says(reading.answer)
}

// `topology STREAM`
pub fn read(held: &mut Holding, q: Query) -> Reply<'static>
    ensures served { StepServed (read_by (held_in held.old) (question_in q.entry)) (held_in held.new) result }
    ensures plain { room_of result ≡ 0 }
    ensures returned { FromResult result }
{
    hold(held, topology::read(q.bytes))
}

// `import FILE`
pub fn import(held: &mut Holding, q: Query) -> Reply<'static>
    ensures served { StepServed (import_by (held_in held.old) (question_in q.entry)) (held_in held.new) result }
    ensures plain { room_of result ≡ 0 }
    ensures returned { FromResult result }
{
    hold(held, ospf::import(q.bytes))
}

// `load-table TABLE`
#[tactic(auto, unfolding(crate::specs::Inner::room_of))]
pub fn load_table(held: &mut Holding, q: Query) -> Reply<'static>
    requires { length q.bytes.now ≤ most_table }
    ensures served { StepServed (load_by (held_in held.old) (question_in q.entry)) (held_in held.new) result }
    ensures plain { room_of result ≡ 0 }
    ensures returned { FromResult result }
{
    held.load(q.bytes);
    Reply::Says(Answer { number: 0, at: 0 })
}

// The packet is lent to the call, and held from then on as the call left it.
#[tactic(auto, unfolding(crate::specs::Inner::room_of, crate::specs::Inner::FromResult))]
fn set(held: &mut Holding, start: Place) -> Reply<'static>
    ensures served { StepServed (set_answer (held_in held.old) (setting_packet held.old.topology start.0 (packet_in held.old.packet))) (held_in held.new) result }
    ensures plain { room_of result ≡ 0 }
    ensures returned { FromResult result }
{
    let after = forwarding::lend_to_set(held.packet, held.topology, start);
    held.packet = after.packet;
    match after.answer {
        Ok(_) => Reply::Finds(Fate::Set, after.packet),
        Err(refusal) => Reply::Refused(refusal.answer()),
    }
}

// What a hop says, with the packet as it is then.
#[tactic(auto, unfolding(crate::specs::Inner::room_of, crate::specs::Inner::FromResult))]
fn hop_reply(answer: Result<Hop, Refusal>, packet: Packet) -> Reply<'static>
    ensures says { Replies (hop_text (hop_says answer) (packet_in packet)) result }
    ensures plain { room_of result ≡ 0 }
    ensures returned { FromResult result }
{
    match answer {
        Ok(Hop::Delivered) => Reply::Finds(Fate::Delivered, packet),
        Ok(Hop::Moved(_)) => Reply::Finds(Fate::Moved, packet),
        Ok(Hop::Dropped) => Reply::Finds(Fate::Dropped, packet),
        Err(refusal) => Reply::Refused(refusal.answer()),
    }
}

fn hop(held: &mut Holding, states: &[u8]) -> Reply<'static>
    ensures served { StepServed (hop_answer (held_in held.old) (hopping_packet held.old.topology (held_in held.old).table states.now (packet_in held.old.packet))) (held_in held.new) result }
    ensures plain { room_of result ≡ 0 }
    ensures returned { FromResult result }
{
    let after = forwarding::lend_to_hop(held.packet, held.topology, held.table(), states);
    held.packet = after.packet;
    hop_reply(after.answer, after.packet)
}

#[tactic(auto, unfolding(crate::specs::Inner::room_of))]
pub fn change_by(change: Change, held: &mut Holding, q: Query) -> Reply<'static>
    requires { length q.bytes.now ≤ most_table }
    ensures served { StepServed (change_to change (held_in held.old) (question_in q.entry)) (held_in held.new) result }
    ensures plain { room_of result ≡ 0 }
    ensures returned { FromResult result }
{
    match change {
        Change::Topology => read(held, q),
        Change::Import => import(held, q),
        Change::LoadTable => load_table(held, q),
        Change::LoadPacket => {
            held.packet = Packet {
                station: q.place,
                hops: q.hops,
            };
            Reply::Says(Answer { number: 0, at: 0 })
        }
        Change::Set => set(held, q.place),
        Change::Hop => hop(held, q.bytes),
    }
}
