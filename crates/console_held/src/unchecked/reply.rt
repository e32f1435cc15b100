// What a line answers, before it is text.
use forwarding::Packet;
use topology_types::Answer;

// What became of a packet.
#[derive(Clone, Copy)]
pub enum Fate {
    Set,
    Delivered,
    Moved,
    Dropped,
}

// That the line is no request; a call's answer; that of one that is lent a buffer, and the buffer as it left it; a line but for its end; or what became of a
// packet, as it is now, or that the call refused.
#[derive(Clone, Copy)]
pub enum Reply<'a> {
    Error,
    Says(Answer),
    Leaves(Answer, &'a [u8]),
    Line(&'a [u8]),
    Finds(Fate, Packet),
    Refused(Answer),
}
