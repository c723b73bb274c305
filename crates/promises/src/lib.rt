// The theorems of the customer's demands (docs/PROMISES.md): no code, definitions in specs/ and theorems in proofs/.

#![tactic(auto)]
