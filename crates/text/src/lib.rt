// Texts as bytes: the parts between marks, decimal numbers, and runs of bytes that pass a test. There is no code here: specs/ has the definitions, proofs/ their laws.

#![tactic(auto)]
