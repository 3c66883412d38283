// The plane of a closed outline's lid, and the corners flattened onto it. The definitions, and the steps of
// the code, for callers that read the corners one at a time.

#![tactic(auto)]

pub mod axes;
pub mod normal;
