// No code: theorems about the definitions of `forest`. Read proofs/Demands.antt first.
#![tactic(auto)]
