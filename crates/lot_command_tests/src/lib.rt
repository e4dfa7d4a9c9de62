//! Tests of `lot_command`: outputs and exit statuses for inputs and command lines, and readers and writers that fail at
//! each of their calls. They are a crate of their own, so that `lot_command` isn't proved a second time for them.
#![tactic(auto)]

#[cfg(test)]
mod tests;
