// The writers of records. Each asks for room, and for numbers that fit 32 bits.
pub mod nodes;
pub mod rules;
