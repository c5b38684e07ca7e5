// The marked examples of SCOPE 12: definitions (specs/) and laws (proofs/) only.
