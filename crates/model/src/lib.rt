// What a planning task means. There is no code here: specs/ has the definitions and proofs/ their laws, for the crates above.
#![tactic(auto)]
