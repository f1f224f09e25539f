// The code of the table: a byte, UTF-8, and the text's end.
pub mod ends;
pub mod transitions;
pub mod utf8;
