// Router-LSAs (RFC 2328, A.4.2), one after another in a file (02, #106): which is malformed, and which has a wrong checksum.
#![tactic(auto)]

mod checksum;
mod formed;

ghost use Rattle.std.specs.Prelude.{◌≡◌, false, true, ◌+◌, ◌<◌, ◌^◌, length};
ghost use Rattle.ospf_lsas.specs.Lsa.{links_in, some?, malformed, lsas_from};
ghost use Rattle.ospf_lsas.specs.Walk.{all_formed};

use stream::unchecked::numbers;
use topology_types::{Fault, Refusal};

// An LSA of a file, not malformed: the offset of its first byte, and its bytes.
#[derive(Clone, Copy)]
pub struct Lsa<'a> {
    pub at: usize,
    pub bytes: &'a [u8],
    pub ghost formed: { malformed bytes.now ≡ false },
}

// A link of an LSA: its Link ID, its type and its metric. The type is its byte, as in the definitions: that it is from 1 to 4 is said of the bytes.
#[derive(Clone, Copy)]
pub struct RouterLink {
    pub id: u32,
    pub kind: u8,
    pub metric: u16,
}

// The links of an LSA, in turn: how many are left, and their bytes.
#[derive(Clone, Copy)]
pub struct RouterLinks<'a> {
    left: u16,
    rest: &'a [u8],
    pub ghost formed: { some? (links_in left rest.now) ≡ true },
}

// The LSAs of a file, none of them malformed: the bytes of those that are left, and where they begin.
#[derive(Clone, Copy)]
pub struct Lsas<'a> {
    at: usize,
    rest: &'a [u8],
    pub ghost formed: { all_formed (lsas_from at 0 rest.now) ≡ true },
    pub ghost fits: { at + length rest.now < 2 ^ 64 },
}

impl<'a> Lsa<'a> {
    ghost use Rattle.ospf_lsas.specs.Lsa as said;
    ghost use Rattle.ospf_lsas.specs.Opened.{links_left};

    // The router that it comes from.
    pub fn advertising_router(self) -> u32
        ensures { result ≡ said.advertising_router self.entry.bytes.now }
    {
        numbers::be32(self.bytes, 8)
    }

    // Its links.
    pub fn links(self) -> RouterLinks<'a>
        ensures { links_left result ≡ said.all_of (said.links self.entry.bytes.now) }
    {
        let length = numbers::be16(self.bytes, 18) as usize;
        let left = numbers::be16(self.bytes, 22);
        RouterLinks {
            left,
            rest: &self.bytes[24..length],
        }
    }
}

impl<'a> Iterator for RouterLinks<'a> {
    ghost use Rattle.std.specs.Iterator.{YieldsFirstBy, item_count};
    ghost use Rattle.ospf_lsas.specs.Opened.{link_seen, links_left};

    type Item = RouterLink;

    ghost next_gives = { YieldsFirstBy link_seen links_left };

    ghost remaining = { item_count links_left };

    fn next(&mut self) -> Option<RouterLink> {
        if self.left == 0 {
            return None;
        }
        let link = RouterLink {
            id: numbers::be32(self.rest, 0),
            kind: self.rest[8],
            metric: numbers::be16(self.rest, 10),
        };
        let (_, rest) = self.rest.split_at(12 + 4 * usize::from(self.rest[9]));
        self.rest = rest;
        self.left -= 1;
        Some(link)
    }
}

impl<'a> Lsas<'a> {
    ghost use Rattle.ospf_lsas.specs.Lsa.{first_malformed_lem};
    ghost use Rattle.ospf_lsas.specs.Opened.{Opens, first_wrong};

    // The LSAs of a file: refusal 26, at the first that is malformed. An LSA says itself where the next one begins, so the offset is no counter of a `for`.
    pub fn of(file: &'a [u8]) -> Result<Lsas<'a>, Refusal>
        ensures { Opens file.now result }
    {
        let mut at: usize = 0;
        while at < file.len() {
            match formed::length_of(&file[at..]) {
                Some(length) => at += length,
                None => return Err(Fault::MalformedLsa.at(at)),
            }
        }
        Ok(Lsas { at: 0, rest: file })
    }

    // The offset of the first that has a wrong checksum.
    pub fn first_wrong_sum(mut self) -> Option<usize>
        ensures { result ≡ first_wrong self.entry }
    {
        self.find(|lsa| checksum::is_wrong(lsa)).map(|lsa| lsa.at)
    }
}

impl<'a> Iterator for Lsas<'a> {
    ghost use Rattle.std.specs.Iterator.{YieldsFirstBy, item_count};
    ghost use Rattle.ospf_lsas.specs.Opened.{lsa_seen, lsas_left};

    type Item = Lsa<'a>;

    ghost next_gives = { YieldsFirstBy lsa_seen lsas_left };

    ghost remaining = { item_count lsas_left };

    fn next(&mut self) -> Option<Lsa<'a>> {
        if self.rest.is_empty() {
            return None;
        }
        let length = numbers::be16(self.rest, 18) as usize;
        let (bytes, rest) = self.rest.split_at(length);
        let lsa = Lsa { at: self.at, bytes };
        self.at += length;
        self.rest = rest;
        Some(lsa)
    }
}
