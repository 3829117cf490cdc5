//! Each call of a system has an answer, about definitions only: no law over calls or runs speaks of nothing. The functions of this crate do
//! nothing when they run: the contract of each is a proved theorem.
//!
//! In comments, numbers such as 6.4.2.3 are sections of IEEE 802.1AX-2014, and "profile" is docs/PROFILE.md.
#![tactic(auto)]

ghost use Rattle.std.specs.Prelude.{ℕ};
ghost use Rattle.law_answers.specs.Answers.{EachCallHasAnAnswer, EachConfigurationBegins, EachListHasAnswers, EachSettingHasAnAnswer};

// promise: each call of a system whose numbers fit has an answer that meets `CallPromise`, and the numbers fit after it; so has each list of
//    calls. So no law over calls is empty: with `each_call_has_one_answer`, what a call does is a function
// contract: `each_call_has_an_answer` (`call`, `list`)
// premises: the algorithm returns an index below the count of ports (`PicksOne`); what is received are octets; a key and a priority that are
//    given are below 65536 (`CallFits`)
/// Each call of a sound system whose numbers fit into their octets has an answer, with all that every call promises; the system is
/// sound after it, and its numbers fit. So have all calls of a list, one after another (6.4.2.3, 6.5.3.3; profile).
pub fn each_call_has_an_answer<F: Fn(u16, usize) -> usize>()
    ensures call { (algorithm : F) → EachCallHasAnAnswer (F.post algorithm) }
    ensures list { (algorithm : F) → EachListHasAnswers (F.post algorithm) }
{}

// promise: so has each setting, by `SettingPromise`
// contract: `each_setting_has_an_answer`
// premises: a CollectorMaxDelay that is set is below 65536 (`SettingFits`)
/// Each setting of a sound system whose numbers fit into their octets has an answer, with all that every setting promises; the system is
/// sound after it, and its numbers fit (6.4.2.3; profile).
pub fn each_setting_has_an_answer()
    ensures { EachSettingHasAnAnswer }
{}

// promise: each configuration that is accepted, whose numbers fit, has a first state, of which that holds
// contract: `each_configuration_begins`
/// Each configuration that is accepted, whose numbers fit into their octets, has a system as `new` makes it, whose numbers fit (profile).
pub fn each_configuration_begins()
    ensures { EachConfigurationBegins }
{}
