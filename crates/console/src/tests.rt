//! Scripts: each line with the answer that it must get.
use super::answer;
use super::site::Site;
use std::process::Abort;
use std::test::*;

type Script<'a> = &'a [(&'a str, &'a str)];

fn replies(
    rt: &(impl Abort + AllocGlobal),
    site: &mut Option<Site>,
    line: &[u8],
    expected: &str,
) -> Result<(), Fail> {
    let text = match answer(rt.alloc(), site, line) {
        Ok(reply) => reply.to_string(rt.alloc())?,
        Err(declined) => declined.to_string(rt.alloc())?,
    };
    assert_eq!(rt; text.as_str(), expected, "at {}", line.escape_ascii());
    Ok(())
}

fn play(rt: &(impl Abort + AllocGlobal), script: Script) -> Result<(), Fail> {
    let mut site = None;
    for (line, expected) in script {
        replies(rt, &mut site, line.as_bytes(), expected)?;
    }
    Ok(())
}

#[test]
fn a_line_that_is_no_command_changes_nothing(rt: HostRuntime) -> Result<(), Fail> {
    play(
        &rt,
        &[
            ("bank ticket 2 1 7", "laid"),
            ("ask 0 0", "in"),
            ("", "unreadable"),
            (" ", "unreadable"),
            ("ask", "unreadable"),
            ("ask 0", "unreadable"),
            ("ask 0 0 ", "unreadable"),
            ("ask  1 0", "unreadable"),
            ("Ask 1 0", "unreadable"),
            ("ask 01 0", "unreadable"),
            ("ask +1 0", "unreadable"),
            ("ask -1 0", "unreadable"),
            ("ask 1A 0", "unreadable"),
            ("ask 18446744073709551616 0", "unreadable"),
            (
                "ask 18446744073709551615 0",
                "refused 2 kind S18446744073709551615",
            ),
            ("bank other 1 1 0", "unreadable"),
            ("word 1", "unreadable"),
            ("poke word 1 0000000000000000", "unreadable"),
            ("poke word 0 000000000000000", "unreadable"),
            ("poke word 0 00000000000000000", "unreadable"),
            ("poke word 0 00000000000000ab", "unreadable"),
            ("word 0", "0000000800000007"),
        ],
    )
}

#[test]
fn commands_are_answered_not_now_where_they_are_not_allowed(rt: HostRuntime) -> Result<(), Fail> {
    play(
        &rt,
        &[
            ("ask 0 0", "not now"),
            ("peek 0", "not now"),
            ("ahead 0", "not now"),
            ("word 0", "not now"),
            ("poke word 0 0000000000000000", "not now"),
            ("bank queuing 1 1 0", "not now"),
            ("bank central 2 1 5", "laid"),
            ("layout central 1 1 0", "not now"),
            ("load 0 700 40 0 1", "not now"),
            ("open", "not now"),
            ("begin 0 lookup 0", "not now"),
            ("begin 0 set 0 700 40 0 1", "not now"),
            ("begin 0 adjust 0 -2147483648 9", "not now"),
            ("begin 0 adjust 0 2147483647 9", "not now"),
            ("begin 0 adjust 0 -2147483649 9", "unreadable"),
            ("begin 0 adjust 0 2147483648 9", "unreadable"),
            ("begin 0 adjust 0 -0 9", "unreadable"),
            ("begin 0 adjust 0 - 9", "unreadable"),
            ("load 0 4294967296 0 0 0", "unreadable"),
            ("step 0", "not now"),
            ("collect 0", "not now"),
            ("close", "not now"),
            ("read 0", "not now"),
            ("node 0", "not now"),
            ("poke bin 0 4294967295 0 0 0", "not now"),
            ("word 0", "0000000000000005"),
        ],
    )
}

#[test]
fn a_refused_bank_leaves_the_one_that_was_there(rt: HostRuntime) -> Result<(), Fail> {
    play(
        &rt,
        &[
            ("bank ticket 3 2 9", "laid"),
            ("ask 2 1", "in"),
            ("bank ticket 0 1 0", "refused 1 table T0"),
            ("bank ticket 1 0 0", "refused 1 table T0"),
            ("bank ticket 1025 1 0", "refused 1 table T0"),
            ("bank ticket 1 4097 0", "refused 1 table T0"),
            ("bank ticket 1 1 4294967296", "refused 1 table T0"),
            ("bank central 1 1 9223372036854775808", "refused 1 table T0"),
            ("word 1", "0000000A00000009"),
            ("ahead 2", "0"),
            ("bank central 1024 4096 9223372036854775807", "laid"),
            ("word 4095", "7FFFFFFFFFFFFFFF"),
        ],
    )
}

#[test]
fn ticket_turns_go_round(rt: HostRuntime) -> Result<(), Fail> {
    play(
        &rt,
        &[
            ("bank ticket 3 1 4294967294", "laid"),
            ("word 0", "FFFFFFFEFFFFFFFE"),
            ("ask 2 0", "in"),
            ("ask 0 0", "not yet"),
            ("word 0", "00000000FFFFFFFE"),
            ("ask 1 0", "not yet"),
            ("ahead 1", "2"),
            ("push 1 0", "waits"),
            ("leave 2 0", "out"),
            ("ask 2 0", "not yet"),
            ("push 0 0", "in"),
            ("peek 0", "00000002FFFFFFFF busy"),
            ("leave 0 0", "out"),
            ("ahead 2", "1"),
            ("push 2 0", "waits"),
            ("push 1 0", "in"),
            ("leave 1 0", "out"),
            ("push 2 0", "in"),
            ("leave 2 0", "out"),
            ("peek 0", "0000000200000002 calm"),
        ],
    )
}

#[test]
fn central_swaps_only_the_word_it_saw(rt: HostRuntime) -> Result<(), Fail> {
    play(
        &rt,
        &[
            ("bank central 3 2 9223372036854775806", "laid"),
            ("ask 3 0", "refused 2 kind S3"),
            ("push 0 2", "refused 3 kind B2"),
            ("leave 0 1", "refused 10 kind S0"),
            ("peek 2", "refused 3 kind B2"),
            ("ahead 3", "refused 2 kind S3"),
            ("ask 0 1", "not yet"),
            ("ask 0 0", "refused 10 kind S0"),
            ("ask 1 1", "not yet"),
            ("push 0 1", "in"),
            ("word 1", "FFFFFFFFFFFFFFFE"),
            ("peek 1", "FFFFFFFFFFFFFFFE busy"),
            ("push 1 1", "moved"),
            ("push 1 1", "waits"),
            ("ask 2 1", "not yet"),
            ("push 2 1", "waits"),
            ("leave 0 1", "out"),
            ("word 1", "7FFFFFFFFFFFFFFF"),
            ("push 2 1", "moved"),
            ("push 2 1", "in"),
            ("leave 2 1", "out"),
            ("word 1", "0000000000000000"),
            ("push 1 1", "moved"),
            ("push 1 1", "in"),
            ("ahead 1", "none"),
            ("leave 1 1", "out"),
            ("peek 1", "0000000000000001 calm"),
            ("peek 0", "7FFFFFFFFFFFFFFE calm"),
        ],
    )
}

#[test]
fn refusals_by_number_layer_and_place(rt: HostRuntime) -> Result<(), Fail> {
    play(
        &rt,
        &[
            ("bank ticket 2 2 0", "laid"),
            ("ask 2 2", "refused 2 kind S2"),
            ("ask 1 2", "refused 3 kind B2"),
            ("push 0 0", "refused 10 kind S0"),
            ("leave 0 0", "refused 10 kind S0"),
            ("ask 0 0", "in"),
            ("ask 0 1", "refused 10 kind S0"),
            ("push 0 0", "refused 10 kind S0"),
            ("push 0 1", "refused 10 kind S0"),
            ("leave 0 1", "refused 10 kind S0"),
            ("peek 2", "refused 3 kind B2"),
            ("ahead 2", "refused 2 kind S2"),
            ("ahead 1", "none"),
            ("poke word 0 0000000300000000", "poked"),
            ("ask 0 0", "refused 9 kind B0"),
            ("ask 1 0", "refused 9 kind B0"),
            ("push 1 0", "refused 10 kind S1"),
            ("leave 0 0", "refused 9 kind B0"),
            ("peek 0", "refused 9 kind B0"),
            ("ahead 0", "refused 9 kind B0"),
            ("poke word 0 0000000200000000", "poked"),
            ("peek 0", "0000000200000000 busy"),
            ("poke word 0 0000000000000001", "poked"),
            ("peek 0", "refused 9 kind B0"),
            ("poke word 0 0000000100000001", "poked"),
            ("ahead 0", "refused 9 kind S0"),
            ("leave 0 0", "out"),
            ("word 0", "0000000100000002"),
        ],
    )
}

#[test]
fn bytes_that_are_no_text_are_unreadable(rt: HostRuntime) -> Result<(), Fail> {
    let mut site = None;
    replies(&rt, &mut site, b"bank ticket 1 1 0", "laid")?;
    replies(&rt, &mut site, b"ask \xff 0", "unreadable")?;
    replies(&rt, &mut site, b"ask 0 0\r", "unreadable")?;
    replies(&rt, &mut site, b"ask\t0 0", "unreadable")?;
    replies(&rt, &mut site, b"ask 0 0\0", "unreadable")?;
    replies(&rt, &mut site, b"word 0", "0000000000000000")
}
