// What the calls promise, as theorems for a reader: see specs/promises and proofs/promises.
