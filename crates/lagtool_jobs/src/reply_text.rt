ghost use Rattle.std.specs.Prelude.{Some};
ghost use Rattle.lagtool_jobs.specs.ReplyTexts.{agreement_text, sent_or_lost_text, refused_text, reply_text};

use bitflags::Flags;
use lagsystem::SystemFault;
use lagtypes::OctetText;
use lagworld::{Agreement, Reply};
use std::fmt;

/// Whether a cable accepted what was sent.
#[derive(Clone, Copy)]
struct SentOrLostText(bool);

impl fmt::Display for SentOrLostText {
    ghost output = { λ t. Some (sent_or_lost_text t.0) };

    fn fmt<W: fmt::Write>(&self, f: &mut fmt::Formatter<W>) -> fmt::Result {
        if self.0 {
            f.write_str("sent")
        } else {
            f.write_str("lost")
        }
    }
}

/// Why a system refused an event, with the number of the fault.
#[derive(Clone, Copy)]
struct RefusedText(SystemFault);

impl fmt::Display for RefusedText {
    ghost output = { λ t. Some (refused_text t.0) };

    fn fmt<W: fmt::Write>(&self, f: &mut fmt::Formatter<W>) -> fmt::Result {
        write!(f, "refused {} {}", self.0.number(), self.0.name())
    }
}

/// The reply to an event (profile).
#[derive(Clone, Copy)]
pub struct ReplyText(pub Reply);

impl fmt::Display for ReplyText {
    ghost output = { λ t. Some (reply_text t.0) };

    fn fmt<W: fmt::Write>(&self, f: &mut fmt::Formatter<W>) -> fmt::Result {
        match self.0 {
            Reply::Ticked => f.write_str("ticked"),
            Reply::Lacpdu(state, accepted) => {
                write!(
                    f,
                    "lacpdu {} {}",
                    OctetText(state.bits()),
                    SentOrLostText(accepted)
                )
            }
            Reply::Marker(id, accepted) => write!(f, "marker {id} {}", SentOrLostText(accepted)),
            Reply::Nothing => f.write_str("nothing"),
            Reply::Took => f.write_str("took"),
            Reply::Responded(accepted) => write!(f, "responded {}", SentOrLostText(accepted)),
            Reply::Released(count) => write!(f, "released {count}"),
            Reply::Up(agg) => write!(f, "up {agg}"),
            Reply::Dropped => f.write_str("dropped"),
            Reply::Disabled => f.write_str("disabled"),
            Reply::Ignored => f.write_str("ignored"),
            Reply::Empty => f.write_str("empty"),
            Reply::Lost => f.write_str("lost"),
            Reply::NotControl => f.write_str("not control"),
            Reply::Cut => f.write_str("cut"),
            Reply::Joined => f.write_str("joined"),
            Reply::Restarted => f.write_str("restarted"),
            Reply::Sensed(true) => f.write_str("up"),
            Reply::Sensed(false) => f.write_str("down"),
            Reply::Configured(true) => f.write_str("configured"),
            Reply::Configured(false) => f.write_str("unchanged"),
            Reply::Port(port, serial, accepted) => {
                write!(
                    f,
                    "port {port} serial {serial} {}",
                    SentOrLostText(accepted)
                )
            }
            Reply::Moved => f.write_str("moved"),
            Reply::Forced => f.write_str("forced"),
            Reply::Refused(fault) => write!(f, "{}", RefusedText(fault)),
        }
    }
}

/// How the two ends of a cable stand to each other (profile).
#[derive(Clone, Copy)]
pub struct AgreementText(pub Agreement);

impl fmt::Display for AgreementText {
    ghost output = { λ t. Some (agreement_text t.0) };

    fn fmt<W: fmt::Write>(&self, f: &mut fmt::Formatter<W>) -> fmt::Result {
        match self.0 {
            Agreement::NotBoth => f.write_str("not-both"),
            Agreement::Defaults => f.write_str("defaults"),
            Agreement::Changed => f.write_str("changed"),
            Agreement::Same => f.write_str("same"),
            Agreement::Differ => f.write_str("differ"),
        }
    }
}
