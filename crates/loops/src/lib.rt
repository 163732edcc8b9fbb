// Generic definitions and laws: the state after a number of loop turns, the list that a loop fills, the first number
// for which a test fails, counts and sums, and laws of tests. There are no functions here.
#![tactic(auto)]
