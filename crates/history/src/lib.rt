// Stores, calls and the reference model are definitions, in specs/; what is proved of them, in proofs/.
#![tactic(auto)]
