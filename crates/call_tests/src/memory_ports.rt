//! Ports over memory.
use byte_ports::{CallPlan, MemorySource, MemoryTarget, PortFault, Source, Target};
use std::test::Fail;

#[test]
fn source_moves_by_pieces(rt: HostRuntime) {
    let mut buffer = [0; 4];
    let mut source = MemorySource::new(b"text", CallPlan::new(3, Some(2)));
    let empty: &mut [u8] = &mut [];
    assert!(rt; source.read(empty) == Ok(0));
    assert!(rt; (source.read(&mut buffer), buffer) == (Ok(3), *b"tex\0"));
    assert!(rt; source.read(&mut buffer) == Ok(1));
    assert!(rt; source.read(&mut buffer) == Err(PortFault));
}

#[test]
fn target_takes_pieces(rt: HostRuntime) -> Result<(), Fail> {
    let mut target = MemoryTarget::new(rt.alloc(), 5, CallPlan::new(3, None))?;
    let taken = [
        target.write(b"text"),
        target.write(b""),
        target.write(b"text"),
        target.write(b""),
    ];
    assert!(rt; taken == [Ok(3), Ok(0), Ok(2), Ok(0)]);
    assert!(rt; target.flush() == Ok(()) && target.flushed() == 5);
    assert!(rt; target.write(b"s") == Err(PortFault));
    assert!(rt; target.flush() == Err(PortFault));
    assert!(rt; target.bytes() == b"texte".as_slice());
    Ok(())
}
