use options_machine::Kind;
use script_text::read_script;
use std::test::Fail;

/// Each line's number, moment, party and kind, and whether it names a feature and a version.
#[test]
fn a_script_of_every_verb(rt: HostRuntime) -> Result<(), Fail> {
    const ROWS: &[(u32, u64, u32, Kind, bool, bool)] = &[
        (2, 0, 0, Kind::Checkout, true, true),
        (3, (1 << 40) - 1, 255, Kind::Checkin, true, false),
        (5, 7, 7, Kind::Beat, true, false),
        (6, 7, 7, Kind::Look, true, false),
        (7, 7, 7, Kind::Count, true, false),
        (8, 7, 7, Kind::Quit, true, false),
        (9, 8, 7, Kind::Queue, true, true),
        (10, 8, 7, Kind::Reread(u32::MAX), false, false),
        (11, 9, 7, Kind::Reread(1), false, false),
    ];
    let file =
        b"# every verb\r\n0 0 ann h1 d1 p1 CHECKOUT edit 1.0\r\n\t1099511627775  255 bob h2 :0 -  \\\n CHECKIN view\n\
        007 007 cy h3 :0 - BEAT edit\n7 7 cy h3 :0 - LOOK edit\n7 7 cy h3 :0 - STATUS edit\n7 7 cy h3 :0 - QUIT edit\n\
        8 7 cy h3 :0 - QUEUE edit 1.5\n8 7 cy h3 :0 - REREAD 4294967295\n9 7 cy h3 :0 - REREAD 01";
    let script = read_script(rt.alloc(), file)?;
    assert_eq!(rt; script.len(), 9);
    for (found, &(line, moment, party, kind, feature, version)) in script.iter().zip(ROWS) {
        assert_eq!(rt; found.line(), line);
        assert_eq!(rt; found.moment(), moment);
        assert_eq!(rt; found.party(), party);
        assert_eq!(rt; found.kind(), kind);
        assert_eq!(rt; found.feature().is_some(), feature);
        assert_eq!(rt; found.version().is_some(), version);
    }
    Ok(())
}
