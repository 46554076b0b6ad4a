//! What a reporter asks of the paths of its round.

use crate::stop::{Stop, Stopped};
use station_portions::HandOver;
use std::alloc::Global;
use std::sync::Arc;

/// How the portions of all paths are ended, for a hand-over or for the end of the run.
#[derive(Drop)]
pub struct Requests {
    /// One for each path.
    pub hand_overs: Vec<Arc<HandOver, Global>>,
    /// The end of the run, where somebody may ask for it.
    pub stop: Option<Arc<Stop, Global>>,
}

impl Requests {
    /// Begins the next portion of each path.
    pub fn resume_all(&self) {
        for hand_over in &self.hand_overs {
            hand_over.resume();
        }
    }

    /// Asks for the end of all portions.
    pub fn end_all(&self) {
        for hand_over in &self.hand_overs {
            hand_over.request();
        }
    }

    /// What shows that the end of the run was asked for, if it was.
    pub fn stopped(&self) -> Option<Stopped> {
        match &self.stop {
            Some(stop) => stop.stopped(),
            None => None,
        }
    }

    /// Asks for the end of all portions if the end of the run was asked for. Answers whether it was.
    pub fn end_if_stopped(&self) -> bool {
        if self.stopped().is_none() {
            return false;
        }
        self.end_all();
        true
    }
}
