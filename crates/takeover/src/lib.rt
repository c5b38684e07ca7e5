// The takeover theorem (SCOPE 9.5) over calls as they were made: the statement (specs/) and its proof only.
