// Places where the words and the characters of a store stop.
pub mod runs;
pub mod stops;
