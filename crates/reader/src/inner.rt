// What a text gets, phase by phase, the room for its tokens, and the lines of nodes.
pub mod lines;
pub mod listings;
pub mod phases;
