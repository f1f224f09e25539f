// What this crate and the crates above it build on.
pub mod classes;
pub mod digits;
pub mod splice;
pub mod utf8;
pub mod words;
