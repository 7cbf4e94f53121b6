//! Tests of names, characters, protections, path components, rulebooks and file systems, with examples from outside.
#![tactic(auto)]

#[cfg(test)]
mod cases;
#[cfg(test)]
mod characters_read;
#[cfg(test)]
mod components_checked;
#[cfg(test)]
mod kinds_asked;
#[cfg(test)]
mod names_checked;
#[cfg(test)]
mod piles_asked;
#[cfg(test)]
mod verdicts_given;
