// For callers that have tested the line and lent the buffers: each `requires` says what it asks.
mod costs;
mod figures;
pub mod putting;
pub mod replies;
