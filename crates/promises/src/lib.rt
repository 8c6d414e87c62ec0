// The promises to the buyer, in one record (specs/Promises.antt), and its proof (proofs/Kept.antt). There is no code here.
#![tactic(auto)]
