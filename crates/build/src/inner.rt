// Rules, expressions and terms over tokens, then what stands around a node, leaves, values and texts.
pub mod around;
pub mod descent;
pub mod leaves;
pub mod rules;
pub mod store;
pub mod terms;
pub mod values;
