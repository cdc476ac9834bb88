// Examples that are run: what is proved of every input, seen on a few.
#![tactic(auto)]

#[cfg(test)]
mod answers;
#[cfg(test)]
mod splits;
#[cfg(test)]
mod tables;
