// Laws of binary32 floats: finite floats in the order of whole numbers, the key that follows that order, whole numbers
// that add exactly, and what fits the format. No function stands here; see specs/ for the definitions and proofs/ for
// the laws.
#![tactic(auto)]
