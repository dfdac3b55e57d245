// Theory alone: the one-hot and the threshold netlists of docs/RULES.md, "What is emitted", over any wires, and what
// they compute and cost. specs/ has the definitions, proofs/ the laws.
#![tactic(auto)]
