//! Runs over files and pipes of these tests.

mod eight_paths;
mod failed_outputs;
mod hand_overs;
mod rounds;
mod run;
