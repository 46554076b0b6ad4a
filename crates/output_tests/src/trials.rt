//! Trials of the program, one for each test. Each crate of tests of the program has a copy of this file.
use crate::comparing::same;
use std::alloc::Global;
use std::process::Abort;
use test_support::{FileHost, Own, Ran, Rig, text};

/// What a trial asks of its runtime.
pub trait Host: FileHost + Abort {}

impl<R: FileHost + Abort> Host for R {}

/// The trials over a runtime. A method's proof knows the bounds of its runtime alone. Over `HostRuntime` itself it would take
/// four times as long.
#[derive(Clone, Copy)]
pub struct Trials<'a, R, W> {
    pub rt: &'a R,
    pub alloc: Global,
    pub rig: Rig<'a, R, W>,
}

impl<'a> Trials<'a, HostRuntime, HostRuntime> {
    pub fn on(rt: &'a HostRuntime) -> Self {
        let (own, alloc) = (*rt, rt.alloc());
        let rig = Rig { rt, own, alloc };
        Trials { rt, alloc, rig }
    }
}

impl<R: Host, W: Own> Trials<'_, R, W> {
    /// Ends the test unless the program left this.
    pub fn leaves(&self, ran: &Ran, status: u8, out: &str, err: &str) {
        same(self.rt, text(&ran.out), out);
        same(self.rt, text(&ran.err), err);
        same(self.rt, ran.status, status);
    }
}
