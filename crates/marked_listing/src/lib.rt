// SCOPE 12 k, the listing, as a theorem (proofs/); no functions.
