// What this crate and the crates above it build on.
pub mod escapes;
pub mod shows;
