ghost use Rattle.std.specs.Prelude.{◌≡◌, ◌∷◌, List};
ghost use Rattle.findings.specs.declared.recent.Heard.{Heard};
ghost use Rattle.findings.specs.KeptEnds.{recent_of, lacpdu_rules};

use crate::finding::{Shown, keep_earlier};
use crate::recent::{Heard, Recent};

/// The first LACPDU of an end that shows each rule of LACPDUs.
#[derive(Clone, Copy, Debug, Default, PartialEq, Eq)]
pub(crate) struct LacpduRules {
    pub(crate) rate: Option<Shown>,
    pub(crate) system: Option<Shown>,
    pub(crate) port: Option<Shown>,
    pub(crate) key: Option<Shown>,
    pub(crate) passive: Option<Shown>,
    pub(crate) silence: Option<Shown>,
    pub(crate) unheard: Option<Shown>,
    pub(crate) desynchronized: Option<Shown>,
    pub(crate) individual: Option<Shown>,
    pub(crate) keys: Option<Shown>,
    pub(crate) segment: Option<Shown>,
    pub(crate) discarded: Option<Shown>,
    pub(crate) one_way: Option<Shown>,
    pub(crate) attached: Option<Shown>,
    pub(crate) relapsing: Option<Shown>,
    pub(crate) third: Option<Shown>,
    pub(crate) hasty: Option<Shown>,
    pub(crate) split: Option<Shown>,
    pub(crate) own_system: Option<Shown>,
}

impl LacpduRules {
    /// Keeps the first LACPDU that shows each rule, after one more LACPDU; `recent` has those that came before it.
    pub(crate) fn hear(&mut self, recent: &Recent, now: &Heard)
        ensures { (l : List Heard) → recent.now ≡ recent_of l → self.old ≡ lacpdu_rules l → self.new ≡ lacpdu_rules (now.now ∷ l) }
    {
        let shown = now.shown();
        keep_earlier(&mut self.rate, recent.is_rushed(now), &shown);
        keep_earlier(&mut self.system, recent.has_other_system(now), &shown);
        keep_earlier(&mut self.port, recent.has_other_port(now), &shown);
        keep_earlier(&mut self.key, recent.has_other_key(now), &shown);
        keep_earlier(&mut self.passive, now.is_passive(), &shown);
        keep_earlier(&mut self.silence, recent.is_late(now), &shown);
        keep_earlier(&mut self.unheard, recent.is_unheard(now), &shown);
        keep_earlier(
            &mut self.desynchronized,
            recent.is_desynchronized(now),
            &shown,
        );
        keep_earlier(&mut self.individual, now.is_individual(), &shown);
        keep_earlier(&mut self.keys, recent.has_other_keys(now), &shown);
        keep_earlier(&mut self.segment, now.has_rival(), &shown);
        keep_earlier(&mut self.discarded, recent.is_discarded(now), &shown);
        keep_earlier(&mut self.one_way, recent.is_one_way(now), &shown);
        keep_earlier(&mut self.attached, recent.is_attached(now), &shown);
        keep_earlier(&mut self.relapsing, recent.is_relapsing(now), &shown);
        keep_earlier(&mut self.third, recent.has_third(now), &shown);
        keep_earlier(&mut self.hasty, recent.is_hasty(now), &shown);
        keep_earlier(&mut self.split, recent.is_split(now), &shown);
        keep_earlier(&mut self.own_system, now.names_own_system(), &shown);
    }
}
