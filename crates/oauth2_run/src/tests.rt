//! Tests of the exit status of the process.

use crate::exit::exit_of;
use oauth2_commands::{RunFault, RunStatus};
use std::process::ExitCode;
use std::test::Fail;

#[test]
fn answered_is_zero(rt: HostRuntime) -> Result<(), Fail> {
    assert_eq!(rt; exit_of(Ok(RunStatus::Answered)), ExitCode::from(0));
    Ok(())
}

#[test]
fn fault_is_one(rt: HostRuntime) -> Result<(), Fail> {
    assert_eq!(rt; exit_of(Ok(RunStatus::Fault)), ExitCode::from(1));
    Ok(())
}

#[test]
fn bad_script_is_two(rt: HostRuntime) -> Result<(), Fail> {
    assert_eq!(rt; exit_of(Ok(RunStatus::BadScript)), ExitCode::from(2));
    Ok(())
}

#[test]
fn failed_read_is_three(rt: HostRuntime) -> Result<(), Fail> {
    assert_eq!(rt; exit_of(Err(RunFault::Read)), ExitCode::from(3));
    Ok(())
}

#[test]
fn failed_write_is_three(rt: HostRuntime) -> Result<(), Fail> {
    assert_eq!(rt; exit_of(Err(RunFault::Write)), ExitCode::from(3));
    Ok(())
}

#[test]
fn no_memory_is_three(rt: HostRuntime) -> Result<(), Fail> {
    assert_eq!(rt; exit_of(Err(RunFault::Memory)), ExitCode::from(3));
    Ok(())
}
