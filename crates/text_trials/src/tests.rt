//! What the crates of text print is what they read, and other text is refused.

mod replies;
mod workloads;
