// Lists of steps, and rounds that are worked from the rules.
use crate::{Draws, Rounds, Step, StepsFault, Way, read_steps};
use std::alloc::Global;
use std::test::Fail;

/// The first line of a text that spells no step over two ports, or 0 where each does.
fn first_bad_line(alloc: Global, text: &[u8]) -> Result<u64, StepsFault> {
    match read_steps(alloc, text, 2) {
        Ok(_) => Ok(0),
        Err(StepsFault::Line { line }) => Ok(line),
        Err(StepsFault::NoMemory) => Err(StepsFault::NoMemory),
    }
}

/// Whether a schedule begins with the steps that a text spells.
fn begins_with(alloc: Global, number: u32, ports: u32, text: &[u8]) -> Result<bool, StepsFault> {
    let steps = read_steps(alloc, text, ports)?;
    let mut rounds = Rounds::make(number, ports);
    let mut same = true;
    for step in steps.as_slice() {
        same = same && rounds.next() == *step;
    }
    Ok(same)
}

#[test]
fn each_kind_of_line_is_read(rt: HostRuntime) -> Result<(), Fail> {
    let steps = read_steps(rt.alloc(), b"m\nd 1\n> 0 4294967295\n< 1 0", 2)?;
    let expected = [
        Step::Machine,
        Step::Device { port: 1 },
        Step::Deliver {
            port: 0,
            way: Way::Out,
            count: 4_294_967_295,
        },
        Step::Deliver {
            port: 1,
            way: Way::Back,
            count: 0,
        },
    ];
    assert_eq!(rt; steps.as_slice(), expected.as_slice());
    Ok(())
}

#[test]
fn the_first_bad_line_is_named(rt: HostRuntime) -> Result<(), Fail> {
    for (text, line) in [
        (b"".as_slice(), 0),
        (b"m\nm\n".as_slice(), 0),
        (b"\n".as_slice(), 1),
        (b"m\n\nm".as_slice(), 2),
        (b"m \n".as_slice(), 1),
        (b"m\r\n".as_slice(), 1),
        (b"# m\n".as_slice(), 1),
        (b"m\nM\n".as_slice(), 2),
        (b"d\n".as_slice(), 1),
        (b"d 2\n".as_slice(), 1),
        (b"d  1\n".as_slice(), 1),
        (b"d 01\n".as_slice(), 1),
        (b"d 0x1\n".as_slice(), 1),
        (b"> 1\n".as_slice(), 1),
        (b"> 1 \n".as_slice(), 1),
        (b"> 2 1\n".as_slice(), 1),
        (b"m\n>1 1\n".as_slice(), 2),
        (b"< 1 4294967296\n".as_slice(), 1),
        (b"< 1 1 1\n".as_slice(), 1),
    ] {
        assert_eq!(rt; first_bad_line(rt.alloc(), text)?, line);
    }
    Ok(())
}

// The draws of 1, as Python's whole numbers give them by the rule: x = (x * 6364136223846793005 + 1442695040888963407)
// % 2**64, and then x // 2**33.
#[test]
fn draws_follow_the_rule(rt: HostRuntime) -> Result<(), Fail> {
    let mut draws = Draws { x: 1 };
    assert_eq!(rt; draws.next(), 908_834_774);
    assert_eq!(rt; draws.next(), 1_093_944_153);
    assert_eq!(rt; draws.below(64), 12);
    assert_eq!(rt; draws.below(1000), 870);
    Ok(())
}

// Schedule 0 is written from the rule. The rounds of the others are worked in Python from the rules of draws and turns:
// of schedule 1 the first draw is 908,834,774, which modulo 4 is place 2, and the second is 1,093,944,153, which modulo
// 64 is 25, so the first delivery has count 26.
#[test]
fn schedules_begin_as_the_rules_say(rt: HostRuntime) -> Result<(), Fail> {
    for (number, ports, text) in [
        (
            0,
            2,
            b"m\n> 0 65556\nd 0\n< 0 65556\n> 1 65556\nd 1\n< 1 65556\nm\n> 0 65556\n".as_slice(),
        ),
        (0, 0, b"m\nm\n".as_slice()),
        (
            1,
            1,
            b"d 0\n< 0 26\nm\n> 0 13\nd 0\n< 0 27\nm\n> 0 52\n".as_slice(),
        ),
        (
            4_294_967_295,
            2,
            b"d 1\n< 1 45\nm\n> 0 17\nd 0\n< 0 12\n> 1 63\n> 1 57\nd 1\n< 1 41\nm\n> 0 64\nd 0\n< 0 1\n".as_slice(),
        ),
    ] {
        assert!(rt; begins_with(rt.alloc(), number, ports, text)?);
    }
    Ok(())
}
