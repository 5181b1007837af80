// Two trip lists joined into one. There is no code here: specs/ has the definition, proofs/ its laws and what is claimed of it.

#![tactic(auto)]
