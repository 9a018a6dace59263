// Demand 3: opens and closes that are apart, in any order: see specs/order and proofs/order.
