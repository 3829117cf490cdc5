//! LACPDUs that overtake data, as on a link with a queue of its own for them.

ghost use Rattle.lagmodel.specs.Law.{EndsAgree, InOrder, OnePartner};
ghost use Rattle.lagmodel.specs.World.{Side};
ghost use Rattle.lagprogress.specs.Overtaking.{HoldsWhereLacpdusOvertake};

// promise: one partner, agreement and order, as in `headline`, hold too where LACPDUs overtake data, markers and responses
// contract: `lacpdus_may_overtake` (`HoldsWhereLacpdusOvertake`)
// premises: LACPDUs keep their order among themselves, and so does all else
/// The headline, as in `lagmodel::headline`, where an LACPDU may go by what is before it on a cable and is none: as where a host sends
/// LACPDUs by a queue of their own. Ports that distribute in one aggregator name one partner system and key; distributing ends of a
/// cable agree; and no frame of a conversation that was never forced is reordered, or comes twice (6.2.4, 6.3.6, 6.4.14; profile).
pub fn lacpdus_may_overtake()
    ensures one_partner { HoldsWhereLacpdusOvertake (λ x w. (s : Side) → OnePartner (w.view s)) }
    ensures agree { HoldsWhereLacpdusOvertake (λ x w. EndsAgree x w) }
    ensures in_order { HoldsWhereLacpdusOvertake (λ x w. InOrder w) }
{}
