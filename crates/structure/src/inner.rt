// Checking over a lent table of tokens, as `token::inner::fill` leaves it.
pub mod checks;
pub mod leaves;
pub mod rules;
pub mod tokens;
pub mod values;
