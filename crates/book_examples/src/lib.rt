// Examples of opening that are run: what is proved of every input, seen on a few.
#![tactic(auto)]

#[cfg(test)]
mod answers;
