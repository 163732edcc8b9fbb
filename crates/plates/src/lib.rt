// The plates of document 01, 'Plates on the wall', as one list and one theorem, and worked examples of document 02. No
// function stands here.
#![tactic(auto)]
