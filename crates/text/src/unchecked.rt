// For callers that have tested the room: each `requires` says what it asks.
pub mod fields;
pub mod hex;
pub mod lines;
