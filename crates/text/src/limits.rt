// What a text, its tables and its brackets may come to.
pub const TEXT: usize = 65536;

pub const NODES: usize = 4096;

pub const RULES: usize = 1024;

pub const STORE: usize = 65536;

pub const OPEN: usize = 1024;
