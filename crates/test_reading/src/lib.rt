//! Tests of all that reads: numbers, lines, models, lists of machines and edits in files, command words, and what they
//! use. The crate has nothing but tests, so that no crate that reads is proved a second time for its tests.
#![tactic(auto)]

#[cfg(test)]
mod assignments;
#[cfg(test)]
mod basics;
#[cfg(test)]
mod draws;
#[cfg(test)]
mod edits;
#[cfg(test)]
mod files;
#[cfg(test)]
mod found;
#[cfg(test)]
mod lines;
#[cfg(test)]
mod models;
#[cfg(test)]
mod outside;
#[cfg(test)]
mod tokens;
#[cfg(test)]
mod trials;
#[cfg(test)]
mod words;
