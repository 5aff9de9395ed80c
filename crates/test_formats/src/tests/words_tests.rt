//! Tests of `command_words`: words of each command that ask for it or are refused, and what they give.

use crate::tests::word_lines::{
    AUDIT, CHECK, FAIL, GEN, NO_CHECK, NO_FAIL, NO_GEN, NO_PUBLISHED, NO_RUN_NOR_AUDIT, NO_SIM,
    NO_STRONG, PUBLISHED, RUN, SIM, STRONG,
};
use actor_net::Schedule;
use basics::NoMemory;
use command_words::{ArgumentsFault, CalmRequest, InstanceWords, Request, parse_command};
use flow_filter::{Filter, Prefix, Site};
use nf_function::Kind;
use std::alloc::Global;
use std::process::Abort;
use std::test::Fail;

/// The words of a line.
fn split(alloc: Global, line: &str) -> Result<Vec<String>, NoMemory> {
    line.split(' ')
        .map(|word| String::from_str(alloc, word))
        .try_collect(alloc)
}

/// The command that a reading asks for.
fn asked(reading: &Result<Request<'_>, ArgumentsFault>) -> &'static str {
    match reading {
        Ok(Request::Run(_)) => "run",
        Ok(Request::Calm(CalmRequest::Sim(..))) => "sim",
        Ok(Request::Calm(CalmRequest::Audit(_))) => "audit",
        Ok(Request::Calm(CalmRequest::Fail(_))) => "fail",
        Ok(Request::Calm(CalmRequest::Check(_))) => "check",
        Ok(Request::Calm(CalmRequest::Gen(_))) => "gen",
        Ok(Request::Calm(CalmRequest::Published(..))) => "published",
        Ok(Request::Calm(CalmRequest::Strong(..))) => "strong",
        Err(ArgumentsFault::Usage) => "usage",
        Err(ArgumentsFault::NoMemory) => "no memory",
    }
}

/// The first of these lines whose words ask for another command than this.
fn first_wrong(
    alloc: Global,
    command: &str,
    lines: &[&'static str],
) -> Result<Option<&'static str>, NoMemory> {
    for line in lines {
        if command_of(alloc, line)? != command {
            return Ok(Some(*line));
        }
    }
    Ok(None)
}

/// The command that the words of a line ask for.
fn command_of(alloc: Global, line: &str) -> Result<&'static str, NoMemory> {
    let words = split(alloc, line)?;
    let reading = parse_command(alloc, words.as_slice());
    let command = asked(&reading);
    drop(reading);
    Ok(command)
}

/// The command that words ask for, of those that start no threads.
fn calm_request(alloc: Global, words: &[String]) -> Result<CalmRequest<'_>, Fail> {
    match parse_command(alloc, words) {
        Ok(Request::Calm(asked)) => Ok(asked),
        other => {
            drop(other);
            Err("no calm command".into())
        }
    }
}

#[test]
fn words_ask_for_a_command_or_are_refused(rt: HostRuntime) -> Result<(), Fail> {
    let tables = [
        ("gen", GEN.as_slice()),
        ("check", CHECK.as_slice()),
        ("sim", SIM.as_slice()),
        ("run", RUN.as_slice()),
        ("audit", AUDIT.as_slice()),
        ("fail", FAIL.as_slice()),
        ("published", PUBLISHED.as_slice()),
        ("strong", STRONG.as_slice()),
        ("usage", NO_GEN.as_slice()),
        ("usage", NO_CHECK.as_slice()),
        ("usage", NO_SIM.as_slice()),
        ("usage", NO_RUN_NOR_AUDIT.as_slice()),
        ("usage", NO_FAIL.as_slice()),
        ("usage", NO_PUBLISHED.as_slice()),
        ("usage", NO_STRONG.as_slice()),
    ];
    for (command, lines) in tables {
        assert_eq!(rt; first_wrong(rt.alloc(), command, lines)?, None, "{command}");
    }
    Ok(())
}

#[test]
fn gen_gives_its_numbers_and_the_file(rt: HostRuntime) -> Result<(), Fail> {
    let words = split(rt.alloc(), "x gen 7 --hosts 200 --packets 10000 t")?;
    let asked = calm_request(rt.alloc(), words.as_slice())?;
    let seen = see_gen(&rt, &asked);
    drop(asked);
    seen
}

/// Looks at what `gen` gives.
fn see_gen(rt: &impl Abort, asked: &CalmRequest<'_>) -> Result<(), Fail> {
    let CalmRequest::Gen(asked) = asked else {
        return Err("no gen".into());
    };
    assert_eq!(rt;
        (asked.number, asked.packets, asked.hosts, asked.trace),
        (7, 10_000, 200, "t")
    );
    Ok(())
}

/// The limit of each instance, and whether it reads chunks of version 1 alone.
fn rows_of(alloc: Global, rows: &[InstanceWords]) -> Result<Vec<(u32, bool)>, NoMemory> {
    rows.iter()
        .map(|row| (row.limit, row.reads_old))
        .collect(alloc)
}

#[test]
fn check_gives_the_instances_and_the_file(rt: HostRuntime) -> Result<(), Fail> {
    let words = split(rt.alloc(), "x check nat --instances a,b:5,c:v1,d:0:v1 s")?;
    let asked = calm_request(rt.alloc(), words.as_slice())?;
    let seen = see_check(&rt, rt.alloc(), &asked);
    drop(asked);
    seen
}

/// Looks at what `check` gives.
fn see_check(rt: &impl Abort, alloc: Global, asked: &CalmRequest<'_>) -> Result<(), Fail> {
    let CalmRequest::Check(checking) = asked else {
        return Err("no check".into());
    };
    let rows = rows_of(alloc, checking.instances.rows.as_slice())?;
    let expected = [(1_000_000, false), (5, false), (1_000_000, true), (0, true)];
    assert_eq!(rt;
        (checking.script, rows.as_slice()),
        ("s", expected.as_slice())
    );
    Ok(())
}

#[test]
fn sim_gives_all_that_its_words_say(rt: HostRuntime) -> Result<(), Fail> {
    let line =
        "x sim nat --instances a,b:5:v1 --inside 10.0.0.0/24 --outside 203.0.113.1 --window 7 --schedule 9 --journal j --summary t s";
    let words = split(rt.alloc(), line)?;
    let asked = calm_request(rt.alloc(), words.as_slice())?;
    let seen = see_sim(&rt, &asked);
    drop(asked);
    seen
}

/// Looks at what `sim` gives where nothing is left out.
fn see_sim(rt: &impl Abort, asked: &CalmRequest<'_>) -> Result<(), Fail> {
    let CalmRequest::Sim(asked, schedule) = asked else {
        return Err("no sim".into());
    };
    let inside = Prefix {
        bits: 0x0a00_0000,
        len: 24,
    };
    let outside = Some(0xcb00_7101);
    assert_eq!(rt;
        (asked.kind, asked.site, asked.window, *schedule),
        (Kind::Nat, Site { inside, outside }, 7, Schedule::Number(9))
    );
    assert_eq!(rt;
        (asked.journal, asked.summary, asked.trace, asked.script),
        (Some("j"), true, "t", Some("s"))
    );
    see_instances(rt, asked.instances.rows.as_slice())
}

/// Looks at the two instances that `sim` gives.
fn see_instances(rt: &impl Abort, rows: &[InstanceWords]) -> Result<(), Fail> {
    let [a, b] = rows else {
        return Err(Fail::from("not two instances"));
    };
    assert_eq!(rt;
        (a.name.items(), a.limit, a.reads_old),
        ("a".as_bytes(), 1_000_000, false)
    );
    assert_eq!(rt;
        (b.name.items(), b.limit, b.reads_old),
        ("b".as_bytes(), 5, true)
    );
    Ok(())
}

#[test]
fn what_sim_may_leave_out_has_its_own_value(rt: HostRuntime) -> Result<(), Fail> {
    let words = split(
        rt.alloc(),
        "x sim monitor --instances a --inside 10.0.0.0/8 t",
    )?;
    let asked = calm_request(rt.alloc(), words.as_slice())?;
    let seen = see_bare_sim(&rt, &asked);
    drop(asked);
    seen
}

/// Looks at what `sim` gives where all is left out that may be.
fn see_bare_sim(rt: &impl Abort, asked: &CalmRequest<'_>) -> Result<(), Fail> {
    let CalmRequest::Sim(asked, schedule) = asked else {
        return Err("no sim".into());
    };
    assert_eq!(rt;
        (asked.kind, asked.site.outside, asked.window, *schedule),
        (Kind::Monitor, None, 256, Schedule::First)
    );
    assert_eq!(rt;
        (asked.journal, asked.summary, asked.script),
        (None, false, None)
    );
    Ok(())
}

#[test]
fn fail_gives_the_places_of_two_instances(rt: HostRuntime) -> Result<(), Fail> {
    let line =
        "x fail conntrack --instances a,b:5,c --inside 10.0.0.0/24 --journal j --failed c --to b --after 14 t s";
    let words = split(rt.alloc(), line)?;
    let asked = calm_request(rt.alloc(), words.as_slice())?;
    let seen = see_fail(&rt, &asked);
    drop(asked);
    seen
}

/// Looks at what `fail` gives.
fn see_fail(rt: &impl Abort, asked: &CalmRequest<'_>) -> Result<(), Fail> {
    let CalmRequest::Fail(asked) = asked else {
        return Err("no fail".into());
    };
    assert_eq!(rt;
        (
            asked.failed,
            asked.to,
            asked.after,
            asked.network.journal,
            asked.network.script
        ),
        (2, 1, 14, Some("j"), Some("s"))
    );
    Ok(())
}

#[test]
fn published_gives_its_numbers_and_the_file(rt: HostRuntime) -> Result<(), Fail> {
    let words = split(
        rt.alloc(),
        "x published conntrack --inside 10.0.0.0/24 --window 8 --schedule 9 t 7 any",
    )?;
    let asked = calm_request(rt.alloc(), words.as_slice())?;
    let seen = see_published(&rt, &asked);
    drop(asked);
    seen
}

/// Looks at what `published` gives.
fn see_published(rt: &impl Abort, asked: &CalmRequest<'_>) -> Result<(), Fail> {
    let CalmRequest::Published(asked, schedule) = asked else {
        return Err("no published".into());
    };
    assert_eq!(rt;
        (asked.window, asked.at, asked.trace, asked.filter, *schedule),
        (8, 7, "t", Filter::ANY, Schedule::Number(9))
    );
    Ok(())
}

#[test]
fn strong_gives_its_names_its_filter_and_the_file(rt: HostRuntime) -> Result<(), Fail> {
    let words = split(
        rt.alloc(),
        "x strong conntrack --instances a,b7 --inside 10.0.0.0/24 --window 8 --schedule 9 t",
    )?;
    let asked = calm_request(rt.alloc(), words.as_slice())?;
    let seen = see_strong(&rt, &asked);
    drop(asked);
    seen
}

/// Looks at what `strong` gives.
fn see_strong(rt: &impl Abort, asked: &CalmRequest<'_>) -> Result<(), Fail> {
    let CalmRequest::Strong(asked, schedule) = asked else {
        return Err("no strong".into());
    };
    let [a, b] = asked.names.items() else {
        return Err(Fail::from("not two names"));
    };
    assert_eq!(rt; (a.items(), b.items()), (b"a".as_slice(), b"b7".as_slice()));
    assert_eq!(rt;
        (asked.window, asked.trace, asked.filter, *schedule),
        (8, "t", Filter::ANY, Schedule::Number(9))
    );
    Ok(())
}
