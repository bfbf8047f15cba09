//! Tests of what is printed, and of command lines whose output depends on who comes first. There is nothing here but
//! tests.
#![tactic(auto)]

#[cfg(test)]
mod checking;
#[cfg(test)]
mod meeting;
#[cfg(test)]
mod printed;
#[cfg(test)]
mod reports;
#[cfg(test)]
mod running;
#[cfg(test)]
mod texts;
#[cfg(test)]
mod verifying;
