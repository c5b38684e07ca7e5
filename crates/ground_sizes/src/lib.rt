// Chunks of two sizes over one world: definitions and laws only.
