// What a node asks, and what is asked of tables before any line is run.
pub mod nodes;
pub mod ready;
