// The request's sentences as theorems over the definitions that the promises cite. All of it is theory: see
// proofs/. docs/CLAIMS.md says which sentence each theorem is.
#![tactic(auto)]
