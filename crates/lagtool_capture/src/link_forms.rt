ghost use Rattle.std.specs.Prelude.{Some};
ghost use Rattle.lagtool_capture.specs.LinkForms.{link_part, link_text, links_text, part_of_end};

use crate::ends::LacpduSender;
use crate::json_links::LinkRecord;
use crate::link_texts::LinkLine;
use crate::links::{Link, link_of};
use std::fmt;

/// How a link is told.
#[derive(Clone, Copy)]
pub(crate) enum LinkForm {
    /// As a line.
    Line,
    /// As a record of JSON.
    Record,
}

/// A link, with times from the first of the capture.
#[derive(Clone, Copy)]
struct LinkText {
    form: LinkForm,
    first: Option<u64>,
    link: Link,
}

impl fmt::Display for LinkText {
    ghost output = { λ t. Some (link_text t.form t.first t.link) };

    fn fmt<W: fmt::Write>(&self, f: &mut fmt::Formatter<W>) -> fmt::Result {
        let first = self.first;
        let link = self.link;
        match self.form {
            LinkForm::Line => write!(f, "{}", LinkLine { first, link }),
            LinkForm::Record => write!(f, "{}", LinkRecord { first, link }),
        }
    }
}

/// The same, if there is a link.
#[derive(Clone, Copy)]
struct LinkPart {
    form: LinkForm,
    first: Option<u64>,
    link: Option<Link>,
}

impl fmt::Display for LinkPart {
    ghost output = { λ t. Some (link_part t.form t.first t.link) };

    fn fmt<W: fmt::Write>(&self, f: &mut fmt::Formatter<W>) -> fmt::Result {
        let form = self.form;
        let first = self.first;
        match self.link {
            Some(link) => write!(f, "{}", LinkText { form, first, link }),
            None => Ok(()),
        }
    }
}

/// The link of an end among all ends, unless it is told at an end before it.
#[derive(Clone, Copy)]
struct PartOfEnd<'a> {
    form: LinkForm,
    first: Option<u64>,
    all: &'a [LacpduSender],
    until: Option<u64>,
    end: &'a LacpduSender,
}

impl fmt::Display for PartOfEnd<'_> {
    ghost output = { λ t. Some (part_of_end t.form t.first t.all.now t.until t.end.now) };

    #[tactic(auto, unfolding(crate::specs::LinkForms::part_of_end))]
    fn fmt<W: fmt::Write>(&self, f: &mut fmt::Formatter<W>) -> fmt::Result {
        let link = LinkPart {
            form: self.form,
            first: self.first,
            link: link_of(self.all, self.until, self.end),
        };
        write!(f, "{link}")
    }
}

/// The links of ends, in a capture whose last LACPDU has the time `until`.
#[derive(Clone, Copy)]
pub(crate) struct LinksText<'a> {
    pub form: LinkForm,
    pub first: Option<u64>,
    pub until: Option<u64>,
    pub ends: &'a [LacpduSender],
}

impl fmt::Display for LinksText<'_> {
    ghost output = { λ t. Some (links_text t.form t.first t.ends.now t.until t.ends.now) };

    fn fmt<W: fmt::Write>(&self, f: &mut fmt::Formatter<W>) -> fmt::Result {
        let form = self.form;
        let first = self.first;
        let until = self.until;
        let all = self.ends;
        for end in all {
            let part = PartOfEnd {
                form,
                first,
                all,
                until,
                end,
            };
            write!(f, "{part}")?;
        }
        Ok(())
    }
}
