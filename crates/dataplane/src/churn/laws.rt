//! What a churn detection machine is after any ticks. The function does nothing when it runs: its contract is a proved theorem
//! about the row of each tick.
ghost use Rattle.std.specs.Prelude.{◌≡◌, List};
ghost use Rattle.dataplane.specs.ChurnHistories.{Found, machine_after, state_told, times_churned};
ghost use Rattle.dataplane.specs.Holding.{counted};

/// After any ticks, the latest first, the state is told by them alone: `Churn` where the port was up and the end out of sync at each
/// of the last 600 or more, `NoChurn` where the last one found it up and in sync, else `Monitor`. Each time that 600 such ticks in a row
/// came is counted (6.4.17).
pub fn every_history_of_ticks()
    ensures state { (ticks : List Found) → (machine_after ticks).state ≡ state_told ticks }
    ensures churns { (ticks : List Found) → (machine_after ticks).churns ≡ counted 0 (times_churned ticks) }
{}
