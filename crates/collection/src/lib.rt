// What a collection does to a heap, plain and joined, and demand 3: definitions and laws, no code.

#![tactic(auto)]
