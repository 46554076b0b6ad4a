//! The desk of a station: its journal with the running table of its aircraft. Readers look at the table while entries are added.
#![tactic(auto)]

mod behind;
mod copies;
mod places;
mod publish_rule;
mod published;
mod published_desk;
mod publisher;

pub use behind::Behind;
pub use copies::Copies;
pub use places::{Opening, Places};
pub use publish_rule::{LookingPlace, PublishRule, ReaderPlace, SeesPublished};
pub use published::{Mark, NoOperation, Origin, PublishedTable};
pub use published_desk::PublishedDesk;
