// Theory alone: the deciphering netlists of instances 1 to 5, docs/RULES.md, "What is emitted", and what they compute
// and cost. specs/ has the definitions, proofs/ the laws.
#![tactic(auto)]
