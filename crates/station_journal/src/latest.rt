//! What is known of a field.

ghost use Rattle.std.specs.Prelude.{◌≡◌, None};
ghost use Rattle.station_journal.specs.Past.{stamp, or_older};

use crate::Stamped;
use std::marker::Model;

/// The newest value of a field with its time, if there is one. Contracts see it as an `Option<Stamped<T>>`, which would
/// take 8 bytes more.
#[derive(Clone, Copy)]
pub struct Latest<T> {
    value: Dated<T>,
}

// A small value has its place beside the tag.
#[derive(Clone, Copy)]
enum Dated<T> {
    Never,
    Last { value: T, at: u64 },
}

impl<T> Model for Latest<T> {
    ghost use Rattle.std.specs.Prelude.{Option};
    ghost use Rattle.station_journal.specs.declared.aircraft.Stamped.{Stamped};

    ghost Value = { Option (Stamped T) };

    ghost use Rattle.station_journal.specs.Latest.{stamped_in, latest_as, latest_as-stamped_in};

    ghost view = { stamped_in };

    ghost inverse = { latest_as };

    ghost inverse_ok = { latest_as-stamped_in };
}

impl<T: Copy> Latest<T> {
    /// The value with its time.
    pub fn stamped(&self) -> Option<Stamped<T>>
        ensures { result ≡ self.now }
    {
        match self.value {
            Dated::Never => None,
            Dated::Last { value, at } => Some(Stamped { value, at }),
        }
    }

    /// Keeps a newer value with its time, if there is one.
    pub fn keep(&mut self, at: u64, value: Option<T>)
        ensures { self.new ≡ or_older (stamp at value) self.old }
    {
        if let Some(value) = value {
            self.value = Dated::Last { value, at };
        }
    }
}

impl<T> Latest<T> {
    /// Nothing is known yet.
    pub fn nothing() -> Self
        ensures { result ≡ None }
    {
        Latest {
            value: Dated::Never,
        }
    }
}

impl<T> Default for Latest<T> {
    fn default() -> Self {
        Latest::nothing()
    }
}
