//! The real socket, clock and bell.
use daemon_outside::{Came, Door, Site};
use session_outside::{Bell, Clock, Got, Link};
use std::io::{self, Read, Write};
use std::os::unix::net::{UnixListener, UnixStream};
use std::test::Fail;
use std::thread::for_each_mut;
use std::{env, fs, process};
use unix_site::UnixSite;

/// A path of this process alone, where nothing is.
fn path(rt: &HostRuntime, name: &str) -> io::Result<String> {
    let name = format!(in rt.alloc(); "unix-site-{}-{name}", process::id(rt.process()))?;
    let path = env::temp_dir(rt)?.join(rt.alloc(), name.as_str())?;
    let _ = fs::remove_file(rt, &path);
    Ok(path.into_string())
}

#[test]
fn a_line_goes_over_a_socket_both_ways(rt: HostRuntime) -> Result<(), Fail> {
    let path = path(&rt, "line")?;
    let mut site = UnixSite::make(rt.clone()?, rt.alloc())?;
    assert!(rt; site.listen(path.as_str()).is_ok());
    let mut post = site.post()?;
    assert!(rt; matches!(post.door.accept(), Came::Quiet));
    let mut client = UnixStream::connect(&rt, path.as_str())?;
    let Came::Link(mut link) = post.door.accept() else {
        return Err(Fail::from("no link"));
    };
    let mut room = [0u8; 8];
    assert!(rt; link.read(&mut room) == Got::Quiet);
    client.write_all(b"QUIT\n")?;
    assert!(rt; link.read(&mut room) == Got::Bytes(5));
    assert!(rt; &room[..5] == b"QUIT\n".as_slice());
    assert!(rt; link.write(b"BYE\n").is_ok());
    assert_eq!(rt; client.read(&mut room)?, 4);
    assert!(rt; &room[..4] == b"BYE\n".as_slice());
    drop(client);
    assert!(rt; link.read(&mut room) == Got::End);
    assert!(rt; link.write(b"BYE\n").is_err());
    post.door.done(link);
    site.retire(post);
    site.close();
    assert!(rt; !fs::exists(&rt, path.as_str())?);
    Ok(())
}

/// Whether a read looks before it waits or not: a hundred lines that are answered, and a Quiet before each fifty.
#[test]
fn lines_go_over_a_socket_in_turn(rt: HostRuntime) -> Result<(), Fail> {
    let path = path(&rt, "turns")?;
    let mut site = UnixSite::make(rt.clone()?, rt.alloc())?;
    assert!(rt; site.listen(path.as_str()).is_ok());
    let mut post = site.post()?;
    let mut client = UnixStream::connect(&rt, path.as_str())?;
    let Came::Link(mut link) = post.door.accept() else {
        return Err(Fail::from("no link"));
    };
    let mut room = [0u8; 8];
    for line in 0..100 {
        if line % 50 == 0 {
            assert!(rt; link.read(&mut room) == Got::Quiet);
        }
        client.write_all(b"LOOK\n")?;
        assert!(rt; link.read(&mut room) == Got::Bytes(5));
        assert!(rt; link.write(b"HELD\n").is_ok());
        assert_eq!(rt; client.read(&mut room)?, 5);
    }
    post.door.done(link);
    site.retire(post);
    site.close();
    Ok(())
}

/// Though a line lies there and a connection waits. What is written still goes out.
#[test]
fn once_the_bell_has_rung_reads_and_accepts_are_quiet(rt: HostRuntime) -> Result<(), Fail> {
    let path = path(&rt, "rung")?;
    let mut site = UnixSite::make(rt.clone()?, rt.alloc())?;
    assert!(rt; site.listen(path.as_str()).is_ok());
    let mut post = site.post()?;
    let mut client = UnixStream::connect(&rt, path.as_str())?;
    let Came::Link(mut link) = post.door.accept() else {
        return Err(Fail::from("no link"));
    };
    client.write_all(b"QUIT\n")?;
    let waiting = UnixStream::connect(&rt, path.as_str())?;
    post.bell.ring();
    let mut room = [0u8; 8];
    assert!(rt; link.read(&mut room) == Got::Quiet);
    assert!(rt; matches!(post.door.accept(), Came::Quiet));
    assert!(rt; link.write(b"BYE\n").is_ok());
    assert_eq!(rt; client.read(&mut room)?, 4);
    drop(waiting);
    post.door.done(link);
    site.retire(post);
    site.close();
    Ok(())
}

#[test]
fn a_stale_socket_is_replaced_and_a_served_one_is_left(rt: HostRuntime) -> Result<(), Fail> {
    let path = path(&rt, "stale")?;
    drop(UnixListener::bind(&rt, path.as_str())?);
    assert!(rt; UnixStream::connect(&rt, path.as_str()).is_err());
    let mut site = UnixSite::make(rt.clone()?, rt.alloc())?;
    assert!(rt; site.listen(path.as_str()).is_ok());
    assert!(rt; site.listen(path.as_str()).is_err());
    let mut other = UnixSite::make(rt.clone()?, rt.alloc())?;
    assert!(rt; other.listen(path.as_str()).is_err());
    other.close();
    assert!(rt; UnixStream::connect(&rt, path.as_str()).is_ok());
    site.close();
    Ok(())
}

#[test]
fn a_file_that_is_no_socket_of_the_site_is_left(rt: HostRuntime) -> Result<(), Fail> {
    let path = path(&rt, "file")?;
    let mut site = UnixSite::make(rt.clone()?, rt.alloc())?;
    fs::write(&rt, path.as_str(), "mine")?;
    assert!(rt; site.listen(path.as_str()).is_err());
    assert!(rt; fs::read_to_string(&rt, path.as_str())?.as_str() == "mine");
    fs::remove_file(&rt, path.as_str())?;
    assert!(rt; site.listen(path.as_str()).is_ok());
    fs::remove_file(&rt, path.as_str())?;
    fs::write(&rt, path.as_str(), "new")?;
    site.close();
    assert!(rt; fs::read_to_string(&rt, path.as_str())?.as_str() == "new");
    fs::remove_file(&rt, path.as_str())?;
    Ok(())
}

#[test]
fn bells_ring_together_in_all_threads_and_the_clock_counts_seconds(
    rt: HostRuntime,
) -> Result<(), Fail> {
    let mut site = UnixSite::make(rt.clone()?, rt.alloc())?;
    let mut posts = Vec::new(rt.alloc());
    for number in 0..2 {
        let mut post = site.post()?;
        assert_eq!(rt; post.number, number);
        assert!(rt; matches!(post.door.accept(), Came::Failed));
        posts.push(post)?;
    }
    for_each_mut(
        &rt,
        &mut posts,
        2,
        &|number, post| {
            if number == 1 {
                post.bell.ring();
            }
        },
    );
    for post in &mut posts {
        assert!(rt; post.bell.rung());
        // 1,767,225,600 is the first moment of 2026, and 4,102,444,800 that of 2100.
        let moment = post.clock.now();
        assert!(rt; 1_767_225_600 < moment && moment < 4_102_444_800);
        assert!(rt; matches!(post.door.accept(), Came::Quiet));
    }
    Ok(())
}

/// Also behind a read that found its bytes at once, since the link doesn't wait then.
#[test]
fn a_write_fails_where_the_client_reads_nothing(rt: HostRuntime) -> Result<(), Fail> {
    let path = path(&rt, "write")?;
    let mut site = UnixSite::make(rt.clone()?, rt.alloc())?;
    assert!(rt; site.listen(path.as_str()).is_ok());
    let mut post = site.post()?;
    let mut client = UnixStream::connect(&rt, path.as_str())?;
    let Came::Link(mut link) = post.door.accept() else {
        return Err(Fail::from("no link"));
    };
    client.write_all(b"QUIT\n")?;
    let mut piece = [b'.'; 4096];
    assert!(rt; link.read(&mut piece) == Got::Bytes(5));
    let written = (0..1000).all(|_| link.write(&piece).is_ok());
    assert!(rt; !written);
    drop(client);
    site.close();
    Ok(())
}
