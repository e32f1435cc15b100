// Builds the orders or the tables for all destinations of a network, counts its greatest hop counts or walks over it, as often as it is told, and
// prints a sum over the results: bench/run and bench/walks time it. Standard input: the kind, how often, in two bytes, and a topology stream. The kind
// is the mode, `s` or `f` for orders by the public call, `S` or `F` for tables with the topology tested once and its arcs laid out once; `g` for greatest
// hop counts, and `w` for walks over a schedule of as many rows as a walk can use, `W` of ten times as many, both over the table of destination 0. Any
// other byte is as `f`.
#![tactic(auto)]

ghost use Rattle.std.specs.Prelude.{ℕ, ◌≡◌, ◌<◌, ◌≤◌, T, length};
ghost use Rattle.topology_sound.specs.Sound.{sound};

use forwarding::Walk;
use order::Mode;
use table::unchecked::Built;
use topology::{Place, ROUTERS, Refusal, Topology};

// The bytes of the longest schedule: ten times 63 rows, 256 links.
const SCHEDULE: usize = 161280;

// What is timed.
#[derive(Clone, Copy)]
enum Kind {
    Orders(Mode),
    Tables(Mode),
    Counts,
    Walks,
    LongWalks,
}

impl From<u8> for Kind {
    fn from(letter: u8) -> Kind {
        match letter {
            b's' => Kind::Orders(Mode::ShortestPath),
            b'S' => Kind::Tables(Mode::ShortestPath),
            b'F' => Kind::Tables(Mode::Free),
            b'g' => Kind::Counts,
            b'w' => Kind::Walks,
            b'W' => Kind::LongWalks,
            _ => Kind::Orders(Mode::Free),
        }
    }
}

// The sum so far with a number behind it.
fn with_number(sum: u32, number: u32) -> u32
    requires { (sum < 65521) × (number < 512) }
    ensures { result < 65521 }
{
    (sum * 31 + number) % 65521
}

// The sum so far with every so many bytes behind it, from the first on.
fn with_bytes(sum: u32, bytes: &[u8], step: usize) -> u32
    requires { (sum < 65521) × (0 < step) }
    ensures { result < 65521 }
{
    let mut next = sum;
    for b in bytes.iter().step_by(step) {
        next = with_number(next, u32::from(*b));
    }
    next
}

// The same again and again, each time with the sum that the time before gave.
fn repeated<F: Fn(u32) -> u32>(times: u32, once: F) -> u32
    requires may { (sum : ℕ) → sum < 65521 → F.pre once sum }
    requires keeps { (sum next : ℕ) → sum < 65521 → F.post once sum next → next < 65521 }
{
    let mut sum: u32 = 0;
    for _ in 0..times {
        sum = once(sum);
    }
    sum
}

// The orders for all destinations, once.
fn all_orders(t: Topology, mode: Mode, sum: u32) -> u32
    requires { sum < 65521 }
    ensures { result < 65521 }
{
    let mut next = sum;
    for d in 0..t.routers.min(ROUTERS) {
        let mut out = [0u8; ROUTERS];
        let _ = order::build(t, Place(d as u8), mode, &mut out);
        next = with_bytes(next, &out, 1);
    }
    next
}

// The tables for all destinations, once.
fn all_tables(t: Topology, mode: Mode, sum: u32) -> u32
    requires { sum < 65521 }
    ensures { result < 65521 }
{
    if !topology::is_sound(t) {
        return 0;
    }
    let a = arcs::unchecked::of(t);
    let mut next = sum;
    for d in 0..t.routers {
        let built = table::unchecked::build(&t, &a, Place(d as u8), mode);
        next = with_bytes(next, &built.bytes, 7);
    }
    next
}

// The table of destination 0 for the order in shortest-path mode.
fn first_table(t: Topology) -> Built
    requires { T (sound t) }
{
    table::unchecked::build(&t, &arcs::unchecked::of(t), Place(0), Mode::ShortestPath)
}

// The greatest hop counts, once.
fn all_counts(t: Topology, table: &[u8], sum: u32) -> u32
    requires { sum < 65521 }
    ensures { result < 65521 }
{
    let mut out = [0u8; ROUTERS];
    let _ = forwarding::greatest_hops(t, table, &mut out);
    with_bytes(sum, &out, 1)
}

fn repeated_counts(t: Topology, times: u32) -> u32 {
    if !topology::is_sound(t) {
        return 0;
    }
    let built = first_table(t);
    let table = built.as_slice();
    repeated(times, |sum| all_counts(t, table, sum))
}

// A row of the schedule: a link is down where its number and the row's add up to a multiple of three.
fn put_states(row: usize, out: &mut [u8])
    requires { row ≤ 630 }
{
    for (l, state) in out.iter_mut().enumerate() {
        *state = if (l + row) % 3 == 0 { 0 } else { 1 };
    }
}

// A schedule of so many rows, a byte for each link; answers how many bytes it has.
fn put_schedule(rows: usize, links: usize, out: &mut [u8]) -> usize
    requires { (rows ≤ 630) × (links ≤ 256) × (161280 ≡ length out.old) }
    ensures { result ≤ 161280 }
{
    // An offset, and not chunks of the slice: with no links a row has no bytes.
    let mut at: usize = 0;
    for row in 0..rows {
        let end = at + links;
        put_states(row, &mut out[at..end]);
        at = end;
    }
    at
}

// The sum so far with a walk's station and hops behind it, 128 more on the hops if it was dropped; with the refusal if there is one.
fn with_walk(sum: u32, walked: Result<Walk, Refusal>) -> u32
    requires { sum < 65521 }
    ensures { result < 65521 }
{
    match walked {
        Ok(Walk::Delivered(packet)) => {
            with_number(
                with_number(sum, u32::from(packet.station.0)),
                u32::from(packet.hops),
            )
        }
        Ok(Walk::Dropped(packet)) => {
            with_number(
                with_number(sum, u32::from(packet.station.0)),
                u32::from(packet.hops) + 128,
            )
        }
        Err(refusal) => with_number(sum, u32::from(refusal.fault.number())),
    }
}

// The walks from all starts, once.
fn all_walks(t: Topology, table: &[u8], schedule: &[u8], sum: u32) -> u32
    requires { (t.routers ≤ 64) × (sum < 65521) }
    ensures { result < 65521 }
{
    let mut next = sum;
    for u in 0..t.routers {
        next = with_walk(next, forwarding::walk(t, table, Place(u as u8), schedule));
    }
    next
}

// Walks over schedules of so many rows for each hop that a walk can make.
fn repeated_walks(t: Topology, rows: usize, times: u32) -> u32
    requires { rows ≤ 10 }
{
    if !topology::is_sound(t) {
        return 0;
    }
    let built = first_table(t);
    let table = built.as_slice();
    let mut schedule: [u8; SCHEDULE] = text::filled(0);
    let end = put_schedule(rows * (t.routers - 1), t.links, &mut schedule);
    let states = &schedule[..end];
    repeated(times, |sum| all_walks(t, table, states, sum))
}

// What is timed, so many times.
fn timed(kind: Kind, t: Topology, times: u32) -> u32 {
    match kind {
        Kind::Orders(mode) => repeated(times, |sum| all_orders(t, mode, sum)),
        Kind::Tables(mode) => repeated(times, |sum| all_tables(t, mode, sum)),
        Kind::Counts => repeated_counts(t, times),
        Kind::Walks => repeated_walks(t, 1, times),
        Kind::LongWalks => repeated_walks(t, 10, times),
    }
}

fn main() {
    let mut input = io::large_buffer();
    let n = io::read_full(0, &mut input);
    if n < 3 {
        return;
    }
    let times = u32::from(u16::from_be_bytes([input[1], input[2]]));
    let sum = match topology::read(&input[3..n]) {
        Ok(t) => timed(Kind::from(input[0]), t, times),
        Err(_) => 0,
    };
    io::print_decimal(1, u64::from(sum));
    io::write_all(1, b"\n");
}
