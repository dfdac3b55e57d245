// Theory alone: Kreyvium's deciphering netlist, docs/RULES.md, "What is emitted", and what it computes and costs.
// specs/ has the definitions, proofs/ the laws.
#![tactic(auto)]
