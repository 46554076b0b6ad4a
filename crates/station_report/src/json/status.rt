//! What an aircraft is, which emergency it reports, and its signal level: members behind a comma. An absent field has none, but
//! for the level.

ghost use Rattle.std.specs.Prelude.{◌≡◌, ◌+◌, ◌≤◌, ◌++◌, length};
ghost use Rattle.arrayvec.specs.ArrayVec.{array_vec_len};
ghost use Rattle.station_report.specs.Json.{if_known, category_letter, category, emergency, unknown_level};

use crate::decimals::{push_number, push_text};
use crate::json::members::Object;
use modes_fields::{Category, CategorySet, Emergency};

fn category_letter(set: CategorySet) -> u8
    ensures { result ≡ category_letter set }
{
    match set {
        CategorySet::A => b'A',
        CategorySet::B => b'B',
        CategorySet::C => b'C',
        CategorySet::D => b'D',
    }
}

/// Appends `category`: the letter of its set, and its number.
#[tactic(auto, unfolding(crate::specs::Json::category))]
pub(crate) fn push_category(object: &mut Object, kind: Option<Category>)
    requires { array_vec_len object.old + 40 ≤ 640 }
    ensures items { object.new.items ≡ object.old.items ++ if_known category kind }
    ensures len { array_vec_len object.new ≤ array_vec_len object.old + 40 }
{
    if let Some(Category { set, number }) = kind {
        push_text(object, b",\"category\":\"");
        object.push(category_letter(set));
        push_number(object, u64::from(number));
        push_text(object, b"\"");
    }
}

/// Appends `emergency`, in the words of readsb. An aircraft that reports none has no such member.
#[tactic(auto, unfolding(crate::specs::Json::emergency))]
pub(crate) fn push_emergency(object: &mut Object, reported: Option<Emergency>)
    requires { array_vec_len object.old + 24 ≤ 640 }
    ensures items { object.new.items ≡ object.old.items ++ if_known emergency reported }
    ensures len { array_vec_len object.new ≤ array_vec_len object.old + 24 }
{
    match reported {
        None | Some(Emergency::NoEmergency) => {}
        Some(Emergency::General) => push_text(object, b",\"emergency\":\"general\""),
        Some(Emergency::Lifeguard) => push_text(object, b",\"emergency\":\"lifeguard\""),
        Some(Emergency::MinimumFuel) => push_text(object, b",\"emergency\":\"minfuel\""),
        Some(Emergency::NoCommunications) => push_text(object, b",\"emergency\":\"nordo\""),
        Some(Emergency::UnlawfulInterference) => push_text(object, b",\"emergency\":\"unlawful\""),
        Some(Emergency::Downed) => push_text(object, b",\"emergency\":\"downed\""),
    }
}

/// Appends `rssi`, the level of the signal in decibels: -49.5, as readsb writes where no receiver gave one. The lines have no level,
/// and dump1090's page needs the key of an aircraft that is selected.
#[tactic(auto, unfolding(crate::specs::Json::unknown_level))]
pub(crate) fn push_level(object: &mut Object)
    requires { array_vec_len object.old + 16 ≤ 640 }
    ensures items { object.new.items ≡ object.old.items ++ unknown_level }
    ensures len { array_vec_len object.new ≤ array_vec_len object.old + 16 }
{
    push_text(object, b",\"rssi\":-49.5");
}
