/// Two cables come up between ports with Long Timeout; at the end all four ports distribute (6.4.13, 6.4.15). The
/// octets are Actor_State (6.4.2.3).
pub(crate) const COMING_UP: &str = "sense 1 1 => Sensed(true)
sense 1 2 => Sensed(true)
sense 2 1 => Sensed(true)
sense 2 2 => Sensed(true)
tick 1 10 => Ticked
tick 2 10 => Ticked
emit 1 1 => lacpdu c5
emit 1 2 => lacpdu c5
deliver 1 2 => Took
deliver 2 2 => Took
emit 2 1 => lacpdu 05
emit 2 2 => lacpdu 05
deliver 1 1 => Took
deliver 2 1 => Took
tick 1 20 => Ticked
tick 2 20 => Ticked
emit 1 1 => lacpdu 0d
emit 1 2 => lacpdu 0d
deliver 1 2 => Took
deliver 2 2 => Took
emit 2 1 => lacpdu 3d
emit 2 2 => lacpdu 3d
deliver 1 1 => Took
deliver 2 1 => Took
";

/// One cable comes up between ports with Short Timeout (6.4.13, 6.4.15).
pub(crate) const ONE_CABLE: &str = "sense 1 1 => Sensed(true)
sense 1 2 => Sensed(true)
tick 1 10 => Ticked
tick 2 10 => Ticked
emit 1 1 => lacpdu c7
deliver 1 2 => Took
emit 2 1 => lacpdu 07
deliver 1 1 => Took
tick 1 10 => Ticked
tick 2 10 => Ticked
emit 1 1 => lacpdu 07
deliver 1 2 => Took
tick 1 10 => Ticked
tick 2 10 => Ticked
emit 1 1 => lacpdu 0f
deliver 1 2 => Took
emit 2 1 => lacpdu 3f
deliver 1 1 => Took
emit 1 1 => lacpdu 3f
deliver 1 2 => Took
";
