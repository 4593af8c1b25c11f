//! A message that no command of a test can be made to tell, and one that is cut short.

use crate::refusal::{Refusal, tell};
use qccd_io::{Failed, MemSink};
use std::test::Fail;

#[test]
fn tells_that_memory_ran_out(rt: HostRuntime) -> Result<(), Fail> {
    let mut sink = MemSink::of(rt.alloc(), 1000, 7, Vec::new(rt.alloc()))?;
    assert_eq!(rt; Refusal::NoMemory.status(), 12);
    assert_eq!(rt; tell(&mut sink, &Refusal::NoMemory), Ok(()));
    assert_eq!(rt; sink.bytes(), b"qccd: no memory\n".as_slice());
    Ok(())
}

#[test]
fn tells_of_a_failing_write(rt: HostRuntime) -> Result<(), Fail> {
    let mut sink = MemSink::of(rt.alloc(), 10, 10, Vec::new(rt.alloc()))?;
    assert_eq!(rt; tell(&mut sink, &Refusal::NoMemory), Err(Failed));
    assert_eq!(rt; sink.bytes(), b"qccd: no m".as_slice());
    Ok(())
}
