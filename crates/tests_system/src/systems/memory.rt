use crate::systems::driven::drives;
use crate::systems::frames::OTHER_KEY;
use lagsystem::SystemFault;

/// Fails if an allocation is refused.
#[test]
fn memory_is_granted(rt: HostRuntime) {
    assert_eq!(rt; drives(&rt, rt.alloc(), &OTHER_KEY), Ok(true));
}

/// Passes whichever allocation is refused.
#[test]
fn refused_memory_leaves_the_system(rt: HostRuntime) {
    match drives(&rt, rt.alloc(), &OTHER_KEY) {
        Ok(holds) => assert!(rt; holds),
        Err(fault) => assert_eq!(rt; fault, SystemFault::NoMemory),
    }
}
