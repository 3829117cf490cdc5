//! The jobs of the program `lagtool`, over any reader and writer: `decode`, `respond`, `check`, `replay` and `vectors`, what
//! they print and how they end. `show` is the job `decode`, `reply` the job `respond`. The names in capitals are the ten vectors of
//! `vectors`, `VECTORS`, and what they are made of: payloads, frames and scripts with the texts that come of them.
//!
//! In comments, numbers such as 6.2.4 are sections of IEEE 802.1AX-2014, and "profile" is docs/PROFILE.md.
#![tactic(auto)]

mod algorithm;
mod checking;
mod directions;
mod expectation;
mod explaining;
mod fault;
mod flows;
mod known_texts;
mod laws;
mod passing;
mod progress;
mod replaying;
mod reply_text;
mod replying;
mod report;
mod running;
mod scan;
mod showing;
mod status;
mod summary;
mod texts;
mod verdict;

pub use checking::{check, check_watched};
pub use expectation::Expectation;
pub use explaining::{digits_text, script_text, unread_text, utf8_text};
pub use fault::{FaultText, ToolFault};
pub use known_texts::{
    ALONE, ALONE_TEXT, DATA_FRAME, LACPDU, LACPDU_AND_MORE, LACPDU_OF_VERSION_2, LACPDU_TEXT,
    MARKER_FRAME, MARKER_OF_TYPE_3, ONE_CABLE, Pieces, RESPONSE_FRAME, SHORT, SUBTYPE_3,
    TWO_BAD_LENGTHS, UP, UP_TEXT, VECTORS,
};
pub use laws::{a_report_keeps_the_headline, a_script_is_not_refused};
pub use passing::{run_vectors, vectors};
pub use progress::{Progress, Unwatched, Watch};
pub use replaying::{replay, replay_watched};
pub use reply_text::{AgreementText, ReplyText};
pub use replying::reply;
pub use showing::show;
pub use status::status_of;
pub use summary::Summary;
