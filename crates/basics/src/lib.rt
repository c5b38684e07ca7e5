// Laws that several crates cite and that are about none of them: specs/ is all there is.
