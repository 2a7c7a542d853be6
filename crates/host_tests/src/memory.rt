// The clock and the sink in memory.
use host_mem::{MemClock, MemSink};
use lama_host::{Clock, Failed, Sink};
use std::test::Fail;

#[test]
fn times_and_output(rt: HostRuntime) -> Result<(), Fail> {
    let alloc = rt.alloc();
    let mut clock = MemClock::new(Vec::from_slice(alloc, &[5, 3, 9])?);
    for want in [5, 5, 9, 9] {
        assert!(rt; clock.now() == want);
    }
    let mut sink = MemSink::new(alloc, Some(4));
    assert!(rt; sink.put(b"abc").is_ok() && sink.put(b"de") == Err(Failed));
    assert!(rt; sink.taken() == b"abc".as_slice());
    Ok(())
}
