ghost use Rattle.std.specs.Prelude.{◌≡◌, Some};
ghost use Rattle.std.specs.List.{range_with_len};
ghost use Rattle.findings.specs.Rules.{all_numbers, rule_advice, rule_clause, rule_name, rule_number};

use std::fmt;

/// A rule of the standard that a capture can show to be broken, or something that it shows of a link.
#[derive(Clone, Copy, Debug, PartialEq, Eq)]
pub enum Rule {
    /// 1: more than three LACPDUs of an end in less than a second.
    Rate,
    /// 2: the partner that it names, in two LACPDUs in turn, is not who answered last, within 90 seconds: another system.
    System,
    /// 3: likewise: another port of the system.
    Port,
    /// 4: likewise: the port has another key.
    Key,
    /// 5: both ends are passive.
    Passive,
    /// 6: a version other than 1.
    Version,
    /// 7: a length other than 124 octets, or 128 with the frame check sequence.
    Length,
    /// 8: a reserved octet that is not zero.
    Reserved,
    /// 9: a destination other than the Slow_Protocols_Multicast address.
    Destination,
    /// 10: a tag.
    Tag,
    /// 11: no LACPDU for longer than the timeout that the partner asks for; behind one that says Expired, for longer than 90 seconds.
    Silence,
    /// 12: Defaulted or Expired for longer than 6 seconds.
    Unheard,
    /// 13: Synchronization lost.
    Desynchronized,
    /// 14: an Individual end with an aggregatable partner.
    Individual,
    /// 15: keys differ within one pair of systems: in two LACPDUs in turn, another link has had one of the two keys and not the
    /// other, within 90 seconds.
    Keys,
    /// 16: two actors on one segment within 90 seconds.
    Segment,
    /// 17: distributing for longer than 3 seconds, and the partner is not collecting.
    Discarded,
    /// 18: LACPDUs in one direction only, for longer than the timeout that the sender asks for; it does not name itself.
    OneWay,
    /// 19: a marker without a response within 3 seconds.
    Unanswered,
    /// 20: a response from an end that has sent an LACPDU, and none of the markers that came since then and wait for one has its
    /// port, system and number. Once more than eight have waited together, none is found.
    Unasked,
    /// 21: a response that comes more than 3 seconds after the latest marker, which it responds to.
    Late,
    /// 22: synchronized and not collecting for longer than 6 seconds, and the partner is not synchronized.
    Attached,
    /// 23: Defaulted or Expired for the second time after current information.
    Relapsing,
    /// 24: a TLV type, or the type or length of a Terminator, that is another one.
    Types,
    /// 25: a source address that is a group's, or zero.
    Source,
    /// 26: in two LACPDUs in turn, both the Partner's system and a third one, which names one of the two ends, have sent LACPDUs
    /// within 90 seconds.
    Third,
    /// 27: synchronized less than 1.75 seconds after it last was, or after it named another partner: 2 seconds less their
    /// tolerance.
    Hasty,
    /// 28: more than a second earlier than the frame before it in the capture, of any end; the first one alone is found.
    Backward,
    /// 29: for longer than 6 seconds, the latest LACPDU, within 90 seconds, of another port of the system with the same key has
    /// named another partner system; both may be aggregated.
    Split,
    /// 30: the partner that it names has its own system identifier, priority and MAC address; it is neither Defaulted nor Expired.
    OwnSystem,
}

/// What is said of a rule: its number, from 1; what is found; the section that has it; and what to do.
#[derive(Clone, Copy)]
struct RuleRow<Text> {
    number: u8,
    name: Text,
    clause: Text,
    advice: Text,
}

/// The rows of all rules, in the order of their numbers.
const ROWS: [RuleRow<&str>; 30] = [
    RuleRow {
        number: 1,
        name: "more than three LACPDUs in a second",
        clause: "6.4.16",
        advice: "Look for what changes the port again and again; an LACP implementation limits its LACPDUs.",
    },
    RuleRow {
        number: 2,
        name: "the partner's system is not the one that answers",
        clause: "6.4.9",
        advice: "Look whether the LACPDUs of the system that answers reach this end: it names another one.",
    },
    RuleRow {
        number: 3,
        name: "the partner's port is not the one that answers",
        clause: "6.4.9",
        advice: "Compare two cables, of the port that this end names and of the one that answers it: they may be crossed.",
    },
    RuleRow {
        number: 4,
        name: "the partner's key is not the one that answers",
        clause: "6.4.9",
        advice: "Look whether the latest LACPDUs of the partner reach this end: it names a key that the partner has no more.",
    },
    RuleRow {
        number: 5,
        name: "both ends are passive",
        clause: "6.4.13",
        advice: "Set LACP to active at one end at least.",
    },
    RuleRow {
        number: 6,
        name: "a version other than 1",
        clause: "6.4.2.3",
        advice: "None is needed: a receiver of version 1 reads the fields that version 1 has.",
    },
    RuleRow {
        number: 7,
        name: "a frame of another length",
        clause: "6.4.2.3",
        advice: "Compare the frames at the other end of the cable: a device between may pad or cut them.",
    },
    RuleRow {
        number: 8,
        name: "a reserved octet is not zero",
        clause: "6.4.2.3",
        advice: "None is needed: a receiver ignores these octets.",
    },
    RuleRow {
        number: 9,
        name: "a frame to another destination",
        clause: "6.4.2.2",
        advice: "Set the destination address of this end's LACPDUs to 01-80-c2-00-00-02 (aAggPortProtocolDA of its port).",
    },
    RuleRow {
        number: 10,
        name: "a frame with a tag",
        clause: "6.4.2.2",
        advice: "Send LACPDUs without a tag (switch: native VLAN untagged): a switch forwards or drops those that have one.",
    },
    RuleRow {
        number: 11,
        name: "no LACPDU for longer than the partner's timeout",
        clause: "6.4.13",
        advice: "Look for lost frames, and whether the sender follows the timeout that the partner asks for (bonding: lacp_rate; switch: lacp rate).",
    },
    RuleRow {
        number: 12,
        name: "defaulted or expired for longer than 6 seconds",
        clause: "6.4.12",
        advice: "If the capture has LACPDUs of the partner, look why they do not reach this end (its receiver, a device between); else set LACP on there (switch: mode active, not on; bonding: mode=802.3ad).",
    },
    RuleRow {
        number: 13,
        name: "synchronization lost",
        clause: "6.4.15",
        advice: "Compare key, port and partner before and after: a party has changed, or the port left its aggregator.",
    },
    RuleRow {
        number: 14,
        name: "one end is Individual",
        clause: "6.3.5",
        advice: "Set this end's port to full duplex, and let it be aggregated, not individual: it may not be aggregated with others.",
    },
    RuleRow {
        number: 15,
        name: "keys differ within one pair of systems",
        clause: "6.3.6",
        advice: "Change the system that has two keys on these links (switch: same channel-group; bonding: it follows speed, duplex, ad_user_port_key; Open vSwitch: one bond): these are two groups.",
    },
    RuleRow {
        number: 16,
        name: "two actors on one segment",
        clause: "6.4.9",
        advice: "Look for a hub, or for a switch between the ends that passes the slow protocols on.",
    },
    RuleRow {
        number: 17,
        name: "distributing while the partner is not collecting",
        clause: "6.4.15",
        advice: "Look why the partner does not collect (see its findings, or compare the Aggregator ID of its links): frames that this end sends are lost there.",
    },
    RuleRow {
        number: 18,
        name: "LACPDUs in one direction only",
        clause: "6.4.12",
        advice: "If this end names no partner, look whether LACP runs at the other end (switch: mode active, not on; bonding: mode=802.3ad); if it names one, look whether the capture has both directions.",
    },
    RuleRow {
        number: 19,
        name: "a marker without a response within 3 seconds",
        clause: "6.5.4",
        advice: "Look whether the marker reaches the partner: each system responds to markers.",
    },
    RuleRow {
        number: 20,
        name: "a marker response that nobody asked for",
        clause: "6.5.4",
        advice: "Compare port, system and number of the response with those of the marker: a responder copies them.",
    },
    RuleRow {
        number: 21,
        name: "a marker response after more than 3 seconds",
        clause: "6.5.4",
        advice: "Look what delays the responses: whoever waits for one may have given up by then.",
    },
    RuleRow {
        number: 22,
        name: "attached for longer than 6 seconds while the partner is not synchronized",
        clause: "6.4.15",
        advice: "Look why the partner does not attach this link: it may have chosen another aggregator (compare Aggregator ID) or have too many links (switch: max links).",
    },
    RuleRow {
        number: 23,
        name: "defaulted or expired again and again",
        clause: "6.4.12",
        advice: "Look for a link that loses frames, and for a partner that sends LACPDUs less often than it is asked to (bonding: lacp_rate; switch: lacp rate).",
    },
    RuleRow {
        number: 24,
        name: "a TLV type or a Terminator other than the standard's",
        clause: "6.4.2.3",
        advice: "Look for a fault of the sender: a receiver does not check these octets, and reads the rest.",
    },
    RuleRow {
        number: 25,
        name: "a source address that is a group's, or zero",
        clause: "6.4.2.2",
        advice: "Give the port that sends the frame an individual MAC address of its own.",
    },
    RuleRow {
        number: 26,
        name: "a third system on the link",
        clause: "6.4.9",
        advice: "Look for a hub, or for a switch that passes the slow protocols on: LACP is between two systems.",
    },
    RuleRow {
        number: 27,
        name: "a wait of less than 2 seconds before synchronization",
        clause: "6.4.15",
        advice: "None is needed if both ends distribute: an end that waits lets links that come up together attach together.",
    },
    RuleRow {
        number: 28,
        name: "more than a second earlier than the frame before it",
        clause: "6.4.4",
        advice: "If files were joined, sort the packets by reordercap and read them again; if a clock was set back, capture anew: rules 18 to 21 are left out, and no time is judged from a packet to an earlier one.",
    },
    RuleRow {
        number: 29,
        name: "links of one system lead to two systems",
        clause: "6.3.6",
        advice: "Cable these links to one system, or make the two systems one (MLAG); give links that are to stay apart keys of their own.",
    },
    RuleRow {
        number: 30,
        name: "the partner's system is the end's own",
        clause: "6.3.2",
        advice: "Look for a loop (a cable between two ports of this system, or a port that hears itself); if there are two machines, one has a copied identifier, and no LACPDU tells which: give each its own (bonding: ad_actor_system; Open vSwitch: other_config:lacp-system-id; teamd: hwaddr, the address of the team device).",
    },
];

impl Rule {
    /// All rules, in the order of their numbers.
    pub const ALL: [Rule; 30] = [
        Rule::Rate,
        Rule::System,
        Rule::Port,
        Rule::Key,
        Rule::Passive,
        Rule::Version,
        Rule::Length,
        Rule::Reserved,
        Rule::Destination,
        Rule::Tag,
        Rule::Silence,
        Rule::Unheard,
        Rule::Desynchronized,
        Rule::Individual,
        Rule::Keys,
        Rule::Segment,
        Rule::Discarded,
        Rule::OneWay,
        Rule::Unanswered,
        Rule::Unasked,
        Rule::Late,
        Rule::Attached,
        Rule::Relapsing,
        Rule::Types,
        Rule::Source,
        Rule::Third,
        Rule::Hasty,
        Rule::Backward,
        Rule::Split,
        Rule::OwnSystem,
    ];

    /// The row of the rule.
    fn row(&self) -> RuleRow<&'static str>
        ensures number { result.number ≡ rule_number self.now }
        ensures name { result.name.now ≡ rule_name self.now }
        ensures clause { result.clause.now ≡ rule_clause self.now }
        ensures advice { result.advice.now ≡ rule_advice self.now }
    {
        ROWS[*self as usize]
    }

    // promise: a rule's number, name, section and advice are those of one table; all rules have the numbers 1 to 30, each once and in order
    // contract: `Rule::number`, `name`, `clause`, `advice` (`Rules`)
    /// The number of the rule, from 1.
    pub fn number(&self) -> u8
        ensures of_table { result ≡ rule_number self.now }
        ensures in_order { all_numbers ≡ range_with_len 1 30 }
    {
        self.row().number
    }

    /// What is found, in a few words.
    pub fn name(&self) -> &'static str
        ensures { result.now ≡ rule_name self.now }
    {
        self.row().name
    }

    /// The section of IEEE 802.1AX-2014 that has the rule.
    pub fn clause(&self) -> &'static str
        ensures { result.now ≡ rule_clause self.now }
    {
        self.row().clause
    }

    /// What to do, in one sentence.
    pub fn advice(&self) -> &'static str
        ensures { result.now ≡ rule_advice self.now }
    {
        self.row().advice
    }
}

/// The name of the rule.
impl fmt::Display for Rule {
    ghost output = { λ rule. Some (rule_name rule) };

    fn fmt<W: fmt::Write>(&self, f: &mut fmt::Formatter<W>) -> fmt::Result {
        f.write_str(self.name())
    }
}
