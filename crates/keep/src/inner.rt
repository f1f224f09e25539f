// A stream to numbers, and numbers to a stream.
pub mod kept;
pub mod opened;
