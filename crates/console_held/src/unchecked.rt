// For callers that have tested the line and lent the buffers: each `requires` says what it asks.
pub mod asked;
pub mod changes;
pub mod holding;
pub mod kind;
pub mod query;
pub mod reply;
