// The theorems that people ask for by name, in proofs/, and the words of their statements that no contract needs, in specs/. There is no code here: an
// edit of the crates below proves none of this again.
#![tactic(auto)]
