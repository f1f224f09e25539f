// Leaves, visits and lines.
pub mod leaves;
pub mod lines;
pub mod visits;
