#![tactic(auto)]

// The worked cases of the specification, as one fact about the definitions. No functions.
