// What is not about wards: general laws (specs/ defines, proofs/ proves), and no code.
#![tactic(auto)]
