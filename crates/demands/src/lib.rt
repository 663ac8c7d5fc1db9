// The mission's demands and document 01's starred cases, over the promises of the requests (crates answers and nocturenc): definitions and
// theorems, no functions.
#![tactic(auto)]
