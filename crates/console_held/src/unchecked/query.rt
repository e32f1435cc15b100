// What a request asks.
use order::Mode;
use topology::Place;

// What the fields hold, each by its kind, as if absent where there is none.
#[derive(Clone, Copy)]
pub struct Query<'a> {
    pub place: Place,
    pub hops: u8,
    pub mode: Mode,
    pub room: usize,
    pub bytes: &'a [u8],
}
