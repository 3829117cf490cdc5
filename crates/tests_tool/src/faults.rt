use crate::comparing::{same, told};
use lagtool_jobs::{FaultText, ToolFault, status_of};
use lagworld::ScriptFault;
use std::test::Fail;

/// A fault, its number, its text, and its message where the file is called `a b`.
const FAULTS: [(ToolFault, u8, &str, &str); 5] = [
    (ToolFault::Read, 1, "cannot read", "cannot read a b"),
    (ToolFault::Write, 2, "cannot write", "cannot write"),
    (ToolFault::NoMemory, 3, "out of memory", "out of memory"),
    (ToolFault::NotHex, 5, "not hex", "not hex"),
    (ToolFault::NotMac, 6, "not a mac", "not a mac"),
];

#[test]
fn faults_have_numbers_texts_and_a_status(rt: HostRuntime) -> Result<(), Fail> {
    for (fault, number, text, said) in FAULTS {
        same(&rt, text, &fault.number(), &number);
        same(&rt, text, &status_of(&Err(fault)), &2);
        told(&rt, fault, text)?;
        told(&rt, FaultText { fault, file: "a b" }, said)?;
    }
    same(&rt, "accepted", &status_of(&Ok(true)), &0);
    same(&rt, "not accepted", &status_of(&Ok(false)), &1);
    let memory = ToolFault::from(ScriptFault::NoMemory);
    same(&rt, "memory", &memory, &ToolFault::NoMemory);
    Ok(())
}
