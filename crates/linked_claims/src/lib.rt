// The demands of the calls on bytes, as a caller has them that links the library: specs/ says what is claimed, proofs/ has the proofs. There
// is no code here.

#![tactic(auto)]
