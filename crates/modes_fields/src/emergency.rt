//! Emergencies: messages of type code 28 with subtype 1.
ghost use Rattle.std.specs.Prelude.{◌≡◌};
ghost use Rattle.modes_fields.specs.Emergencies.{emergency_of, emergency_in};

use crate::message::Message;

/// The emergency or priority status that an aircraft reports (ICAO Doc 9871, register 61).
#[derive(Clone, Copy, Debug, PartialEq, Eq)]
pub enum Emergency {
    /// State 0: the aircraft reports that it has none.
    NoEmergency,
    /// State 1.
    General,
    /// State 2: a lifeguard or medical flight.
    Lifeguard,
    /// State 3.
    MinimumFuel,
    /// State 4.
    NoCommunications,
    /// State 5.
    UnlawfulInterference,
    /// State 6: a downed aircraft.
    Downed,
}

// The emergency of a state. None of 7, which is reserved.
fn emergency_state(state: u64) -> Option<Emergency>
    ensures { result ≡ emergency_of state }
{
    match state {
        0 => Some(Emergency::NoEmergency),
        1 => Some(Emergency::General),
        2 => Some(Emergency::Lifeguard),
        3 => Some(Emergency::MinimumFuel),
        4 => Some(Emergency::NoCommunications),
        5 => Some(Emergency::UnlawfulInterference),
        6 => Some(Emergency::Downed),
        _ => None,
    }
}

// The emergency in a message of type code 28. Only subtype 1 has one.
#[tactic(auto, unfolding(crate::specs::Emergencies::emergency_in))]
pub(crate) fn message_emergency(message: &Message) -> Option<Emergency>
    ensures { result ≡ emergency_in message.now }
{
    match message.field(6, 8) {
        1 => emergency_state(message.field(9, 11)),
        _ => None,
    }
}
