// The lines, and what `inspect` prints.
use crate::tests::checks::FORK;
use crate::tests::files::bytes_of;
use inspection::{PRINTOUT, inspect};
use lines::fault::LineFault;
use lines::role::Role;
use lines::write::{count_line, fault_line};
use listing::counts::Counts;
use refusal::{Place, RefusalNumber};
use std::process::Abort;
use std::test::Fail;

// Whether a buffer begins with a text.
fn begins(rt: &impl Abort, out: &[u8], text: &[u8]) {
    assert!(rt; out.starts_with(text));
}

#[test]
fn fault_lines(rt: HostRuntime) {
    let mut out = [b'.'; 64];
    assert_eq!(rt;
        fault_line(Role::Pattern, RefusalNumber(13), Place(1), &mut out),
        Ok(16)
    );
    begins(&rt, &out, b"pattern 13 at 1\n..");
    let most = RefusalNumber(usize::MAX);
    assert_eq!(rt;
        fault_line(Role::Program, most, Place(usize::MAX), &mut out),
        Ok(53)
    );
    begins(
        &rt,
        &out,
        b"program 18446744073709551615 at 18446744073709551615\n.",
    );
}

#[test]
fn count_lines(rt: HostRuntime) {
    let mut out = [b'.'; 70];
    let counts = Counts {
        blocks: 3,
        wires: 2,
    };
    assert_eq!(rt; count_line(Role::Pattern, counts, &mut out), Ok(25));
    begins(&rt, &out, b"pattern 3 blocks 2 wires\n.");
    let most = Counts {
        blocks: usize::MAX,
        wires: usize::MAX,
    };
    assert_eq!(rt; count_line(Role::Program, most, &mut out), Ok(63));
    begins(
        &rt,
        &out,
        b"program 18446744073709551615 blocks 18446744073709551615 wires\n.",
    );
}

#[test]
fn short_buffers(rt: HostRuntime) {
    let mut out = [b'.'; 63];
    let counts = Counts {
        blocks: 3,
        wires: 2,
    };
    assert_eq!(rt;
        fault_line(Role::Pattern, RefusalNumber(10), Place(0), &mut out),
        Err(LineFault::ShortBuffer)
    );
    assert_eq!(rt;
        count_line(Role::Program, counts, &mut out),
        Err(LineFault::ShortBuffer)
    );
    assert_eq!(rt;
        count_line(Role::Program, counts, &mut []),
        Err(LineFault::ShortBuffer)
    );
    assert_eq!(rt; out, [b'.'; 63]);
}

#[test]
fn printouts(rt: HostRuntime) -> Result<(), Fail> {
    let fork = bytes_of(rt.alloc(), &FORK)?;
    let mut out = [b'.'; PRINTOUT];
    assert_eq!(rt; inspect(&fork, &fork, &mut out), 50);
    begins(
        &rt,
        &out,
        b"pattern 3 blocks 2 wires\nprogram 3 blocks 2 wires\n.",
    );
    assert_eq!(rt; inspect(&[], &fork, &mut out), 41);
    begins(&rt, &out, b"pattern 10 at 0\nprogram 3 blocks 2 wires\n");
    assert_eq!(rt; inspect(&fork, &[1, 2, 3], &mut out), 41);
    begins(&rt, &out, b"pattern 3 blocks 2 wires\nprogram 17 at 0\n");
    Ok(())
}
