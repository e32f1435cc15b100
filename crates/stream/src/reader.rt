// The record reader: it carries the lent stream and the offset it has reached (01, Topology stream; Forms by place). `next_record` leaves the work to
// `record_at`, whose parameters are plain.
ghost use Rattle.std.specs.Prelude.{◌≡◌};
ghost use Rattle.stream_rules.specs.Inner.{record_seen};
ghost use Rattle.stream.specs.Reader.{next};

use super::{Record, bytes};
use topology_types::Fault;

#[derive(Drop)]
pub(crate) struct Reader<'a> {
    pub stream: &'a [u8],
    pub at: usize,
}

impl<'a> Reader<'a> {
    // Takes the next record: the reader has then reached the offset past it, or stays where a refusal, 1 or 2, stands in its place.
    pub(crate) fn next_record(&mut self) -> Result<Record, Fault>
        ensures { record { found = record_seen result; reader = self.new } ≡ next self.old }
    {
        let record = bytes::record_at(self.stream, self.at)?;
        self.at += bytes::width_of(record);
        Ok(record)
    }
}
