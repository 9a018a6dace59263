// Functions that compute what the rules mean, proved to agree with them, and the worked examples: see specs/model and proofs/model.
