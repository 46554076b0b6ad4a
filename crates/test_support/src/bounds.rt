//! What tests ask of their runtimes, under one name each.
use station_main::PathHost;
use std::env::Env;
use std::fs::File;
use std::rt::Files;
use std::sync::Wait;
use std::thread::Threads;
use std::time::Clock;

/// What the program needs.
pub trait System: Threads + Wait + Clock + Files<File = File, Dir: Send> + Sync {}

impl<R: Threads + Wait + Clock + Files<File = File, Dir: Send> + Sync> System for R {}

/// What making files and pipes needs besides.
pub trait FileHost: System + AllocGlobal + Env {}

impl<R: System + AllocGlobal + Env> FileHost for R {}

/// What the threads that read paths need.
pub trait Own: Wait + Clock + PathHost + Copy + Send + 'static {}

impl<W: Wait + Clock + PathHost + Copy + Send + 'static> Own for W {}
