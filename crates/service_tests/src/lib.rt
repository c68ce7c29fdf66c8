//! Tests of the turnstile, of the depot, of a hall, of how connections end, of one with a hall and of a port, over their public calls
//! alone: what no scenario over the built program can show.
//!
//! They stand apart, since a crate with tests is proved twice. It has no code but its tests.
#![tactic(auto)]

#[cfg(test)]
mod depot_tests;
#[cfg(test)]
mod gate_ground;
#[cfg(test)]
mod gate_link;
#[cfg(test)]
mod hall;
#[cfg(test)]
mod hall_connection_tests;
#[cfg(test)]
mod hall_own_tests;
#[cfg(test)]
mod hall_scenes;
#[cfg(test)]
mod hall_tests;
#[cfg(test)]
mod hall_threads_tests;
#[cfg(test)]
mod library;
#[cfg(test)]
mod library_server_tests;
#[cfg(test)]
mod port_tests;
#[cfg(test)]
mod standing_clock;
#[cfg(test)]
mod turnstile_tests;
