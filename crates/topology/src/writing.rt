// Putting records onto a page.
ghost use Rattle.std.specs.Prelude.{◌∷◌, ◌≡◌, ◌+◌, ◌*◌, ◌≤◌, length};
ghost use Rattle.topology_types.specs.Limits.{most_routers, most_links};
ghost use Rattle.text.specs.Inner.{Put};
ghost use Rattle.text.specs.Page.{Puts, Room};
ghost use Rattle.network.specs.Lists.{keep};
ghost use Rattle.topology.specs.Inner.{differing, stream_of};
ghost use Rattle.topology.specs.Written.{half_body, link_bytes, joined_over};
ghost use Rattle.topology.specs.Written as said;

use text::unchecked::lines::Page;
use topology_types::{Half, Link};

fn router_bytes(id: u32) -> [u8; 5]
    ensures { result ≡ said.router_bytes id }
{
    let [a, b, c, d] = id.to_be_bytes();
    [1, a, b, c, d]
}

// A half's body behind a kind: record 4, or record 2, whose body is that of a link's first half.
fn half_bytes(kind: u8, h: Half) -> [u8; 5]
    ensures { result ≡ kind ∷ half_body h }
{
    let [high, low] = h.cost.to_be_bytes();
    [kind, h.from.0, h.to.0, high, low]
}

// Record 2 where the costs agree, else both halves, the first place's first (02, #105).
fn put_link(page: &mut Page<'_>, l: Link)
    requires { Room page.old (length (link_bytes l)) }
    ensures { Puts page.old (link_bytes l) page.new }
{
    let first = Half {
        from: l.first,
        to: l.second,
        cost: l.cost,
    };
    let second = Half {
        from: l.second,
        to: l.first,
        cost: l.back,
    };
    if l.cost == l.back {
        page.put(&half_bytes(2, first));
    } else {
        page.put(&half_bytes(4, first));
        page.put(&half_bytes(4, second));
    }
}

fn put_routers(page: &mut Page<'_>, ids: &[u32])
    requires { Room page.old (5 * length ids.now) }
    ensures { Puts page.old (joined_over said.router_bytes ids.now) page.new }
{
    for id in ids {
        page.put(&router_bytes(*id));
    }
}

fn put_links(page: &mut Page<'_>, links: &[Link])
    requires { Room page.old (length (joined_over link_bytes links.now)) }
    ensures { Puts page.old (joined_over link_bytes links.now) page.new }
{
    for l in links {
        put_link(page, *l);
    }
}

// How many links have two costs.
fn count_differing(links: &[Link]) -> usize
    ensures { result ≡ length (keep differing links.now) }
{
    links.iter().filter(|l| l.cost != l.back).count()
}

// How many bytes writing needs.
pub(crate) fn length_of(ids: &[u32], links: &[Link]) -> usize
    requires { (length ids.now ≤ most_routers) × (length links.now ≤ most_links) }
    ensures { result ≡ 2 + 5 * length ids.now + length (joined_over link_bytes links.now) + 1 }
{
    2 + 5 * ids.len() + 5 * (links.len() + count_differing(links)) + 1
}

// Record 8, the routers, the links and the end.
fn put_records(page: &mut Page<'_>, limit: u8, ids: &[u32], links: &[Link])
    requires { Room page.old (length (stream_of limit ids.now links.now)) }
    ensures { Puts page.old (stream_of limit ids.now links.now) page.new }
{
    page.put(&[8, limit]);
    put_routers(page, ids);
    put_links(page, links);
    page.put(&[3]);
}

// Puts a topology's stream at the start of a lent buffer, and answers how many bytes it has.
pub(crate) fn put_stream(out: &mut [u8], limit: u8, ids: &[u32], links: &[Link]) -> usize
    requires { length (stream_of limit ids.now links.now) ≤ length out.old }
    ensures { Put out.old 0 (stream_of limit ids.now links.now) result out.new }
{
    let mut page = Page::new(out);
    put_records(&mut page, limit, ids, links);
    page.filled
}

// The same of a limit and a stream behind it.
pub(crate) fn put_limit(out: &mut [u8], limit: u8, stream: &[u8]) -> usize
    requires { length stream.now + 2 ≤ length out.old }
    ensures { Put out.old 0 (8 ∷ limit ∷ stream.now) result out.new }
{
    let mut page = Page::new(out);
    page.put(&[8, limit]);
    page.put(stream);
    page.filled
}
