//! Emitter categories: bits 6 to 8 of an identification.
ghost use Rattle.std.specs.Prelude.{◌≡◌};
ghost use Rattle.modes_fields.specs.Categories.{category_set as category_set_of, category_in};

use crate::message::Message;

/// A set of emitter categories. The type code of the identification says which.
#[derive(Clone, Copy, Debug, PartialEq, Eq)]
pub enum CategorySet {
    /// Type code 4: aircraft by their size, and rotorcraft.
    A,
    /// Type code 3: gliders, balloons, parachutists, ultralights, unmanned and space vehicles.
    B,
    /// Type code 2: surface vehicles and obstacles.
    C,
    /// Type code 1: reserved.
    D,
}

/// What kind of aircraft or vehicle sends, as A3.
#[derive(Clone, Copy, Debug, PartialEq, Eq)]
pub struct Category {
    pub set: CategorySet,
    /// 1 to 7.
    pub number: u8,
}

// The set of type code 1 to 4.
fn category_set(code: u64) -> CategorySet
    ensures { result ≡ category_set_of code }
{
    match code {
        4 => CategorySet::A,
        3 => CategorySet::B,
        2 => CategorySet::C,
        _ => CategorySet::D,
    }
}

// The category in an identification. None of number 0, which says nothing.
#[tactic(auto, unfolding(crate::specs::Categories::category_in))]
pub(crate) fn message_category(message: &Message) -> Option<Category>
    ensures { result ≡ category_in message.now }
{
    let number = message.field(6, 8) as u8;
    if number == 0 {
        return None;
    }
    let set = category_set(message.field(1, 5));
    Some(Category { set, number })
}
