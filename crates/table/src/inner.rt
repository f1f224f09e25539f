// What the crates above build on: records by their index, the parts of the check, the rule of a name,
// and characters.
pub mod characters;
pub mod checks;
pub mod heavy;
pub mod layout;
pub mod light;
pub mod names;
pub mod texts;
