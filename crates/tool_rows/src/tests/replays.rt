use feature_lines::read_licence;
use options_text::read_options;
use outside::MemSink;
use script_text::read_script;
use scripts::{PlayFault, play};
use std::process::Abort;
use std::test::Fail;

/// What a script writes on a pool of two licences, where these writes fail.
fn played(
    rt: &(impl Abort + AllocGlobal),
    script: &[u8],
    failing: &[u64],
) -> Result<(Result<(), PlayFault>, MemSink), Fail> {
    let licence = read_licence(rt.alloc(), b"FEATURE edit acme 2.0 permanent 2\n")?;
    let mut options = Vec::new(rt.alloc());
    options.push(read_options(rt.alloc(), b"")?)?;
    assert_eq!(rt; options.len(), 1);
    assert!(rt; script.len() < 1 << 32);
    let script = read_script(rt.alloc(), script)?;
    let mut sink = MemSink::make(rt.alloc(), 131_072, failing.to_vec(rt.alloc())?)?;
    let ended = play(
        rt.alloc(),
        &licence,
        options.as_slice(),
        script.as_slice(),
        &mut sink,
    );
    Ok((ended, sink))
}

/// The output lines are written some thousands at a time. Those before the write that fails stay written.
#[test]
fn a_write_fails(rt: HostRuntime) -> Result<(), Fail> {
    let mut script = Vec::new(rt.alloc());
    for _line in 0..8000 {
        script.extend_from_slice(b"0 0 ann h1 d1 p1 REREAD 0\n")?;
    }
    let (ended, whole) = played(&rt, script.as_slice(), &[])?;
    assert_eq!(rt; ended, Ok(()));
    assert_eq!(rt; whole.bytes.len(), 8000 * 9);
    let (ended, cut) = played(&rt, script.as_slice(), &[1])?;
    assert_eq!(rt; ended, Err(PlayFault::WriteFailed));
    assert!(rt; !cut.bytes.is_empty() && cut.bytes.len() < whole.bytes.len());
    assert!(rt; whole.bytes.as_slice().starts_with(cut.bytes.as_slice()));
    let (ended, none) = played(&rt, script.as_slice(), &[0])?;
    assert_eq!(rt; ended, Err(PlayFault::WriteFailed));
    assert!(rt; none.bytes.is_empty());
    Ok(())
}
