//! A link that plays a client of a trial.
use session_outside::{Got, Link};
use std::test::Fail;
use trial_link::TrialLink;

/// A line of the client and the reply to it, of each in turn; none at its end.
const ROUNDS: &[(&[u8], &[u8])] = &[
    (b"HELLO u3 h3 d3 p3\n", b"WELCOME 3\n"),
    (b"CHECKOUT trial 1.0\n", b"NOSEAT TAKEN 2 OF 2 #0\n"),
    (b"CHECKOUT trial 1.0\n", b"GRANTED SEAT 0 OPEN #1\n"),
    (b"CHECKIN trial\n", b"RETURNED #2\n"),
    (b"CHECKOUT trial 1.0\n", b"GRANTED SEAT 1 OPEN #3\n"),
    (b"CHECKIN trial\n", b"RETURNED #4\n"),
    (b"QUIT\n", b"BYE\n"),
    (b"", b""),
];

#[test]
fn a_client_plays_its_rounds(rt: HostRuntime) -> Result<(), Fail> {
    let mut link = TrialLink::make(rt.alloc(), 3, 2)?;
    let mut room = [0u8; 32];
    for &(line, reply) in ROUNDS {
        let got = link.read(&mut room);
        if line.is_empty() {
            assert!(rt; got == Got::End);
        } else {
            assert!(rt; got == Got::Bytes(line.len()));
            assert!(rt; room.starts_with(line));
            assert!(rt; link.write(reply).is_ok());
        }
    }
    assert_eq!(rt; (link.played, link.grants), (2, 2));
    Ok(())
}
