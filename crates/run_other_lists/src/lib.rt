// An example that meets every premise of demand 3 with work lists that are not the flood's, and what its run ends with.
// No function stands here; specs/ has the example and what is computed of it.
#![tactic(auto)]
