#![tactic(auto)]

// The customer's three demands, as theorems about the definitions that the engine's contracts cite. No functions.
