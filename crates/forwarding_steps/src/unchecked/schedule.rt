// The tests of link states and schedules.
ghost use Rattle.std.specs.Prelude.{◌≡◌, ℕ, ◌≤◌, ◌<◌, length, get_or, nat_lt, position};
ghost use Rattle.order.specs.Calls.{first_of};
ghost use Rattle.forwarding_rules.specs.Schedule.{sound_length, wrong_states};

// A number that no byte is over: the greatest of them. Many bytes are taken at a time, as no search for one of them would take them.
fn highest(states: &[u8]) -> u8
    ensures { (i : ℕ) → i < length states.now → get_or states.now i 0 ≤ result }
{
    states.iter().copied().max().unwrap_or(0)
}

fn over_one(states: &[u8]) -> Option<usize>
    ensures { result ≡ position (λ s. nat_lt 1 s) states.now }
{
    states.iter().position(|s| *s > 1)
}

// The first byte over 1, if there is one; that there is none is found first.
pub fn first_over(states: &[u8]) -> Option<usize>
    ensures { result ≡ first_of (wrong_states states.now) }
{
    if highest(states) <= 1 {
        return None;
    }
    over_one(states)
}

// Whether so many bytes are whole rows of a byte for each link, at least n - 1 of them; with no links there are no bytes. Row lengths are added up, since a
// division would be by the links, and there may be none (01, Plausible and wrong).
pub fn is_whole(n: usize, links: usize, bytes: usize) -> bool
    requires { 1 ≤ n }
    ensures { result ≡ sound_length n links bytes }
{
    if links == 0 {
        return bytes == 0;
    }
    let mut at: usize = 0;
    let mut rows: usize = 0;
    while at < bytes {
        if bytes - at < links {
            return false;
        }
        at += links;
        rows += 1;
    }
    n - 1 <= rows
}
