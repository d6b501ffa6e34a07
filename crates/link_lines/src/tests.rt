use crate::{LinkCounts, put_links};
use cos_base::Octets;
use std::test::Fail;

#[test]
fn each_link_has_a_line_by_port(rt: HostRuntime) -> Result<(), Fail> {
    let links = [
        LinkCounts {
            out_packets: 1,
            out_bytes: 44,
            back_packets: 2,
            back_bytes: 122,
        },
        LinkCounts {
            out_packets: 0,
            out_bytes: u64::MAX,
            back_packets: 10,
            back_bytes: 305,
        },
    ];
    let mut text = Octets::make(rt.alloc());
    put_links(&links, 907, &mut text)?;
    let want =
        "link p0 out 1 44 back 2 122\nlink p1 out 0 18446744073709551615 back 10 305\nsteps 907\n";
    assert!(rt; text.as_slice() == want.as_bytes());
    Ok(())
}

#[test]
fn a_run_without_links_has_its_steps(rt: HostRuntime) -> Result<(), Fail> {
    let mut text = Octets::make(rt.alloc());
    text.push_all(b"stop budget at 3\n")?;
    put_links(&[], 0, &mut text)?;
    assert!(rt; text.as_slice() == b"stop budget at 3\nsteps 0\n".as_slice());
    Ok(())
}
