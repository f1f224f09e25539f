// Brackets, leaves, and what stands over one node.
pub mod brackets;
pub mod leaves;
pub mod unary;
