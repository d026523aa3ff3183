// Document 01's bench case is a definition, in specs/; worked examples are in proofs/.
#![tactic(auto)]
