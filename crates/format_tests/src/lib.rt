//! Tests of slots and streams that no whole run shows: what is read up to a limit, and files and streams of the system.
#![tactic(auto)]

#[cfg(test)]
mod slots;
#[cfg(test)]
mod system_files;
