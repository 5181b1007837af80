// The claims about a session as a whole: specs/ says what is claimed, proofs/ has the proofs. There is no code here.

#![tactic(auto)]
