// For callers that have tested the topology and the table: each `requires` says what it asks.
pub(crate) mod chains;
pub mod counting;
pub mod moving;
pub mod schedule;
