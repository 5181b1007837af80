// Cases that are computed: the marked edges of document 01, and wrong stores that the demands rule out. There is no code here.

#![tactic(auto)]
