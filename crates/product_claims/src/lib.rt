// The user's three demands, each as one proposition over the definitions that the contracts cite. No code.

#![tactic(auto)]
