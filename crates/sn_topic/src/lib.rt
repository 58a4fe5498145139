//! Topic names, topic filters and the ids that are agreed on beforehand (MQTT-SN 1.2 sections
//! 5.3.11, 5.3.12 and 6.7).
//!
//! A topic is a row of levels with `/` between them. `TopicName` is the name of one topic, `Filter`
//! may have the wildcards `+` (any one level) and `#` (all levels that are left), and `matches`
//! says whether a filter asks for a name. `Predefined` is the table of names whose ids every client
//! knows from the start. `TopicFault` says why octets were refused.
//!
//! `octets` is passed on, since types of it stand in ours.
#![tactic(auto)]

mod fault;
mod filter;
mod level;
mod matching;
mod name;
mod predefined;

pub use fault::TopicFault;
pub use filter::Filter;
pub use level::MAX_TOPIC;
pub use matching::matches;
pub use name::TopicName;
pub use octets;
pub use predefined::{MAX_TOPIC_ID, Predefined, is_topic_id};
