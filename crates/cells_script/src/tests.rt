ghost use Rattle.cells_script.specs.Telling.{CanTellAnswer, CanTellDenial, CanTellNote, CanTellRule, CanTellStep};

use super::*;
use claim_types::{
    Bucket, Change, ClaimKey, Class, Creates, Denial, How, Keys, LeaseId, NoMemory, Note,
    Operations, Question, Range, Rule, Step, Text, Transition,
};
use std::alloc::Global;
use std::process::Abort;
use std::test::Fail;

fn text(alloc: Global, bytes: &str) -> Result<Text, NoMemory> {
    Text::from_slice(alloc, bytes.as_bytes())
}

fn key(alloc: Global, bucket: Bucket, value: &str) -> Result<ClaimKey, NoMemory> {
    let value = text(alloc, value)?;
    Ok(ClaimKey { bucket, value })
}

fn reads<R: AllocGlobal + Abort>(rt: &R, line: &str, wanted: Line) -> Result<(), NoMemory> {
    let found = Line::read(rt.alloc(), line.as_bytes())?;
    assert!(rt; found == Some(wanted), "{line}");
    Ok(())
}

#[test]
fn reads_the_making_of_an_organization(rt: HostRuntime) -> Result<(), Fail> {
    let alloc = rt.alloc();
    let (cell, name) = (1, text(alloc, "acme")?);
    let line = "create 1 organization acme";
    reads(&rt, line, Line::CreateOrganization { cell, name })?;
    let (name, organization) = (text(alloc, "Alice")?, text(alloc, "acme")?);
    let user = Line::CreateUser {
        cell,
        name,
        organization,
    };
    reads(&rt, "create 1 user Alice acme", user)?;
    let (name, organization) = (text(alloc, "acme")?, text(alloc, "one")?);
    let group = Line::CreateTopGroup {
        cell,
        name,
        organization,
    };
    reads(&rt, "create 1 group  acme   one", group)?;
    Ok(())
}

#[test]
fn reads_what_is_created_in_it(rt: HostRuntime) -> Result<(), Fail> {
    let alloc = rt.alloc();
    let (cell, route) = (1, text(alloc, "acme/sub")?);
    let line = "create 1 group acme/sub";
    reads(&rt, line, Line::CreateGroup { cell, route })?;
    let route = text(alloc, "acme/app")?;
    let line = "create 1 project acme/app";
    reads(&rt, line, Line::CreateProject { cell, route })?;
    let (user, value) = (text(alloc, "alice")?, text(alloc, "aa")?);
    let line = "create 1 key alice aa";
    reads(&rt, line, Line::CreateKey { cell, user, value })?;
    let (user, value) = (text(alloc, "alice")?, text(alloc, "Alice@Example.com")?);
    let line = "create 1 address alice Alice@Example.com";
    reads(&rt, line, Line::CreateAddress { cell, user, value })?;
    let (cell, route) = (999, text(alloc, "acme/app")?);
    let value = text(alloc, "docs.acme.example")?;
    let line = "create 999 domain acme/app docs.acme.example";
    reads(&rt, line, Line::CreateDomain { cell, route, value })?;
    Ok(())
}

#[test]
fn reads_what_is_changed(rt: HostRuntime) -> Result<(), Fail> {
    let alloc = rt.alloc();
    let (cell, bucket) = (1, Bucket::Route);
    let (value, name) = (text(alloc, "acme")?, text(alloc, "acme-corp")?);
    let rename = Line::Rename {
        cell,
        bucket,
        value,
        name,
    };
    reads(&rt, "rename 1 route acme acme-corp", rename)?;
    let value = text(alloc, "acme")?;
    let remove = Line::Remove {
        cell,
        bucket,
        value,
    };
    reads(&rt, "remove 1 route acme", remove)?;
    Ok(())
}

#[test]
fn reads_what_is_asked(rt: HostRuntime) -> Result<(), Fail> {
    let alloc = rt.alloc();
    let sought = text(alloc, "cell-2-abc")?;
    let line = "classify session cell-2-abc";
    reads(&rt, line, Line::ClassifySession { text: sought })?;
    let sought = text(alloc, "acme/app")?;
    let line = "classify path acme/app";
    reads(&rt, line, Line::ClassifyPath { text: sought })?;
    let (bucket, value) = (Bucket::Route, text(alloc, "Acme")?);
    let line = "classify claim route Acme";
    reads(&rt, line, Line::ClassifyClaim { bucket, value })?;
    Ok(())
}

#[test]
fn reads_what_is_routed(rt: HostRuntime) -> Result<(), Fail> {
    let alloc = rt.alloc();
    let (method, target) = (text(alloc, "GET")?, text(alloc, "/acme/app/-/issues")?);
    let plain = Line::Route {
        method,
        target,
        cookie: None,
    };
    reads(&rt, "route GET /acme/app/-/issues", plain)?;
    let (method, target) = (text(alloc, "GET")?, text(alloc, "/-/profile")?);
    let cookie = Some(text(alloc, "a=b;  _gitlab_session=cell-9-abc")?);
    let with_cookie = Line::Route {
        method,
        target,
        cookie,
    };
    let line = "route  GET /-/profile   a=b;  _gitlab_session=cell-9-abc";
    reads(&rt, line, with_cookie)?;
    Ok(())
}

fn reads_all<R: AllocGlobal + Abort>(rt: &R, rows: &[(&str, Line)]) -> Result<(), NoMemory> {
    for (line, wanted) in rows {
        match Line::read(rt.alloc(), line.as_bytes())? {
            Some(found) => assert!(rt; found == *wanted, "{line}"),
            None => assert!(rt; false, "{line}"),
        }
    }
    Ok(())
}

fn range(number: Option<u64>) -> Line {
    Line::Range { cell: 1, number }
}

fn verify(cell: u16, span: Option<Span>) -> Line {
    Line::Verify { cell, span }
}

#[test]
fn reads_numbers(rt: HostRuntime) -> Result<(), Fail> {
    let span = Span {
        bucket: Bucket::Route,
        first: 5,
        last: 5,
    };
    let rows = [
        ("range 1", range(None)),
        (
            "range 1 18446744073709551615",
            range(Some(18_446_744_073_709_551_615)),
        ),
        ("reconcile 10", Line::Reconcile { cell: 10 }),
        ("verify 3", verify(3, None)),
        ("verify 1 route 5 5", verify(1, Some(span))),
        ("classify first", Line::ClassifyFirst),
        ("classify cell 9", Line::ClassifyCell { cell: 9 }),
        ("lose 0", Line::Lose { number: 0 }),
        ("repeat 15", Line::Repeat { tag: 15 }),
        (
            "wait 4294967295",
            Line::Wait {
                seconds: 4_294_967_295,
            },
        ),
        ("restart service", Line::RestartService),
        ("restart 999", Line::Restart { cell: 999 }),
    ];
    reads_all(&rt, &rows)?;
    Ok(())
}

const NO_LINES: [&str; 40] = [
    "",
    "# range 1",
    " range 1",
    "range 1 ",
    "range\t1",
    "range 1\r",
    "range 1 \u{e9}",
    "jump",
    "range",
    "Range 1",
    "range 0",
    "range 01",
    "range 1000",
    "range 65537",
    "range +1",
    "range -1",
    "range 1 0",
    "range 1 18446744073709551616",
    "range 1 2 3",
    "create 1 key alice",
    "create 1 organization acme one",
    "create 1 team acme",
    "create 1 domain acme/app docs.acme.example more",
    "rename 1 routes acme beta",
    "rename 1 route acme",
    "remove 1 route acme beta",
    "verify 1 route",
    "verify 1 route 5 4",
    "verify 1 route 0 4",
    "verify 1 route 1 9223372036854775808",
    "classify",
    "classify last",
    "classify first 1",
    "classify cell 0",
    "classify claim rout acme",
    "route GET",
    "lose",
    "lose 4294967296",
    "wait 00",
    "restart Service",
];

#[test]
fn refuses_what_is_no_line(rt: HostRuntime) -> Result<(), Fail> {
    for line in NO_LINES {
        let found = Line::read(rt.alloc(), line.as_bytes())?;
        assert!(rt; found.is_none(), "{line}");
    }
    let alloc = rt.alloc();
    let longest = format!(in alloc; "classify path {}", "a".repeat(alloc, 1_010)?)?;
    assert!(rt; Line::read(alloc, longest.as_bytes())?.is_some());
    let longer = format!(in alloc; "{longest}a")?;
    assert!(rt; Line::read(alloc, longer.as_bytes())?.is_none());
    Ok(())
}

// The lease whose text is `00010000-0001-8000-8000-000000000001`.
const FIRST: LeaseId = LeaseId {
    cell: 1,
    epoch: 1,
    attempt: 1,
};

// The lease whose text is `00020000-0001-8000-8000-000000000022`.
const OTHER: LeaseId = LeaseId {
    cell: 2,
    epoch: 1,
    attempt: 34,
};

fn tells<R: AllocGlobal + Abort>(rt: &R, answer: Answer, wanted: &str) -> Result<(), NoMemory>
    requires { CanTellAnswer answer }
{
    let found = answer.text(rt.alloc())?;
    assert!(rt; found.as_slice() == wanted.as_bytes(), "{wanted}");
    Ok(())
}

fn refuses<R: AllocGlobal + Abort>(rt: &R, rule: Rule, wanted: &str) -> Result<(), NoMemory>
    requires { CanTellRule rule }
{
    tells(rt, Answer::Refused { rule }, wanted)
}

fn denies<R: AllocGlobal + Abort>(rt: &R, denial: Denial, wanted: &str) -> Result<(), Fail>
    requires { CanTellDenial denial }
{
    let wanted = format!(in rt.alloc(); "denied 00010000-0001-8000-8000-000000000001 {wanted}")?;
    tells(
        rt,
        Answer::Denied {
            lease: FIRST,
            denial,
        },
        wanted.as_str(),
    )?;
    Ok(())
}

#[test]
fn tells_how_a_change_ended(rt: HostRuntime) -> Result<(), Fail> {
    let alloc = rt.alloc();
    tells(&rt, Answer::NoCell, "no cell")?;
    tells(
        &rt,
        Answer::InDoubt { lease: FIRST },
        "in doubt 00010000-0001-8000-8000-000000000001",
    )?;
    tells(
        &rt,
        Answer::Accepted { lease: OTHER },
        "accepted 00020000-0001-8000-8000-000000000022",
    )?;
    let changed = Answer::Changed {
        lease: FIRST,
        then: 1,
        now: 2,
    };
    tells(
        &rt,
        changed,
        "changed 00010000-0001-8000-8000-000000000001 1 2",
    )?;
    let waiting = Answer::Waiting { lease: Some(FIRST) };
    tells(&rt, waiting, "waiting 00010000-0001-8000-8000-000000000001")?;
    tells(&rt, Answer::Waiting { lease: None }, "waiting")?;
    let key = key(alloc, Bucket::Route, "al")?;
    refuses(&rt, Rule::TakenHere { key }, "refused taken-here route:al")?;
    refuses(&rt, Rule::TooMany { n: 66 }, "refused too-many 66")?;
    refuses(&rt, Rule::TooManyRows { n: 4_096 }, "refused rows 4096")?;
    Ok(())
}

#[test]
fn tells_why_it_is_refused(rt: HostRuntime) -> Result<(), Fail> {
    refuses(&rt, Rule::NoSuchRecord, "refused no-such-record")?;
    refuses(&rt, Rule::WrongKind, "refused wrong-kind")?;
    refuses(&rt, Rule::BadName, "refused bad-name")?;
    refuses(&rt, Rule::Same, "refused same")?;
    refuses(&rt, Rule::HasChildren, "refused has-children")?;
    refuses(&rt, Rule::NoIds, "refused no-ids")?;
    refuses(&rt, Rule::VersionSpent, "refused version-spent")?;
    denies(
        &rt,
        Denial::Settled {
            how: How::RolledBack,
        },
        "settled rolled back",
    )?;
    denies(&rt, Denial::OtherOperations, "other operations")?;
    denies(&rt, Denial::NoneOrTooMany { n: 0 }, "count 0")?;
    denies(&rt, Denial::ForeignId { id: 1_001 }, "foreign id 1001")?;
    denies(&rt, Denial::TooManyOpen, "too many open")?;
    Ok(())
}

#[test]
fn tells_whose_key_it_is(rt: HostRuntime) -> Result<(), Fail> {
    let alloc = rt.alloc();
    let held = key(alloc, Bucket::Route, "acme")?;
    denies(
        &rt,
        Denial::Owned { key: held, cell: 1 },
        "owned route:acme 1",
    )?;
    let named = key(alloc, Bucket::PagesDomain, "docs.acme.example")?;
    let leased = "leased pages_domain:docs.acme.example 00020000-0001-8000-8000-000000000022";
    denies(
        &rt,
        Denial::Leased {
            key: named,
            lease: OTHER,
        },
        leased,
    )?;
    let twice = key(alloc, Bucket::OrganizationPath, "acme")?;
    denies(
        &rt,
        Denial::Twice { key: twice },
        "twice organization_path:acme",
    )?;
    let lost = key(alloc, Bucket::SshKey, "00")?;
    denies(&rt, Denial::NotOwned { key: lost }, "not owned ssh_key:00")?;
    Ok(())
}

#[test]
fn tells_what_other_lines_come_to(rt: HostRuntime) -> Result<(), Fail> {
    tells(
        &rt,
        Answer::Ranged {
            number: 1,
            low: 1_001,
            high: 1_500,
        },
        "ranged 1 1001 1500",
    )?;
    tells(&rt, Answer::TooFar { next: 2 }, "too far 2")?;
    let last = 9_223_372_036_854_775_807;
    tells(
        &rt,
        Answer::Exhausted { last },
        "exhausted 9223372036854775807",
    )?;
    tells(&rt, Answer::Reconciled, "reconciled")?;
    let verified = Answer::Verified {
        missing: 0,
        extra: 1,
        different: 2,
    };
    tells(&rt, verified, "verified 0 missing 1 extra 2 different")?;
    tells(
        &rt,
        Answer::Busy {
            pending: 0,
            outstanding: 1,
        },
        "busy 0 1",
    )?;
    tells(&rt, Answer::Moved { then: 4, now: 5 }, "moved 4 5")?;
    tells(&rt, Answer::InCell { cell: 2 }, "cell 2")?;
    tells(&rt, Answer::Served { cell: 1, id: 3 }, "served 1 3")?;
    tells(&rt, Answer::NotHere { cell: 1 }, "not here 1")?;
    tells(&rt, Answer::Repeated { tag: 15 }, "repeated 15")?;
    Ok(())
}

#[test]
fn tells_the_plain_answers(rt: HostRuntime) -> Result<(), Fail> {
    tells(&rt, Answer::NotFound, "not found")?;
    tells(&rt, Answer::UnknownCell, "unknown cell")?;
    tells(&rt, Answer::BadKey, "bad key")?;
    tells(&rt, Answer::NoRule, "no rule")?;
    tells(&rt, Answer::BadTarget, "bad target")?;
    tells(&rt, Answer::Armed, "armed")?;
    tells(&rt, Answer::Waited, "waited")?;
    tells(&rt, Answer::NoPacket, "no packet")?;
    tells(&rt, Answer::Restarted, "restarted")?;
    Ok(())
}

fn happens<R: AllocGlobal + Abort>(
    rt: &R,
    take: u64,
    step: Step,
    wanted: &str,
) -> Result<(), NoMemory>
    requires { CanTellStep step }
{
    let found = transition_text(rt.alloc(), &Transition { take, step })?;
    assert!(rt; found.as_slice() == wanted.as_bytes(), "{wanted}");
    Ok(())
}

fn no_operations(alloc: Global) -> Operations {
    Operations {
        creates: Creates::new(alloc),
        destroys: Keys::new(alloc),
    }
}

fn asks<R: AllocGlobal + Abort>(
    rt: &R,
    question: Question,
    class: Class,
    wanted: &str,
) -> Result<(), NoMemory> {
    happens(rt, 15, Step::Answered { question, class }, wanted)
}

#[test]
fn tells_what_begins(rt: HostRuntime) -> Result<(), Fail> {
    let alloc = rt.alloc();
    let range = Range {
        cell: 1,
        number: 1,
        low: 1,
        high: 1_000,
    };
    let ranged = "  take 1: ranged 1 1 1 1000";
    happens(&rt, 1, Step::Ranged { range }, ranged)?;
    let (lease, ops) = (FIRST, no_operations(alloc));
    let leased = "  take 3: leased 00010000-0001-8000-8000-000000000001";
    happens(&rt, 3, Step::Leased { lease, ops }, leased)?;
    let key = key(alloc, Bucket::Route, "acme")?;
    let (lease, denial) = (OTHER, Denial::Owned { key, cell: 1 });
    let denied = "  take 17: denied 00020000-0001-8000-8000-000000000022 owned route:acme 1";
    happens(&rt, 17, Step::Denied { lease, denial }, denied)?;
    Ok(())
}

#[test]
fn tells_how_leases_go_on(rt: HostRuntime) -> Result<(), Fail> {
    let (lease, change) = (FIRST, Change::Remove { id: 1 });
    let recorded = "  take 4: recorded 00010000-0001-8000-8000-000000000001";
    happens(&rt, 4, Step::Recorded { lease, change }, recorded)?;
    let committed = "  take 5: committed 00010000-0001-8000-8000-000000000001";
    happens(&rt, 5, Step::Committed { lease }, committed)?;
    let rolled_back = "  take 8: rolled back 00010000-0001-8000-8000-000000000001";
    happens(&rt, 8, Step::RolledBack { lease }, rolled_back)?;
    Ok(())
}

#[test]
fn tells_who_is_served(rt: HostRuntime) -> Result<(), Fail> {
    let (question, cell) = (Question::First, 1);
    happens(
        &rt,
        9,
        Step::Served { question, cell },
        "  take 9: served first 1",
    )?;
    Ok(())
}

#[test]
fn tells_transitions_of_questions(rt: HostRuntime) -> Result<(), Fail> {
    let alloc = rt.alloc();
    let route = text(alloc, "acme/app")?;
    asks(
        &rt,
        Question::Path { text: route },
        Class::Cell { id: 1 },
        "  take 15: answered path acme/app 1",
    )?;
    let session = text(alloc, "cell-9-abc")?;
    asks(
        &rt,
        Question::Session { text: session },
        Class::NotFound,
        "  take 15: answered session cell-9-abc none",
    )?;
    asks(
        &rt,
        Question::Path {
            text: Text::new(alloc),
        },
        Class::NotFound,
        "  take 15: answered path  none",
    )?;
    asks(
        &rt,
        Question::Cell { id: 9 },
        Class::UnknownCell,
        "  take 15: answered cell 9 unknown",
    )?;
    let key = key(alloc, Bucket::Route, "acme")?;
    asks(
        &rt,
        Question::Claim { key },
        Class::Cell { id: 1 },
        "  take 15: answered claim route:acme 1",
    )?;
    Ok(())
}

fn notes<R: AllocGlobal + Abort>(rt: &R, note: &Note, wanted: &str) -> Result<(), NoMemory>
    requires { CanTellNote note.now }
{
    let found = note_text(rt.alloc(), note)?;
    assert!(rt; found.as_slice() == wanted.as_bytes(), "{wanted}");
    Ok(())
}

#[test]
fn tells_notes(rt: HostRuntime) -> Result<(), Fail> {
    notes(
        &rt,
        &Note::Ended { lease: FIRST },
        "  ended 00010000-0001-8000-8000-000000000001",
    )?;
    let changed = Note::Changed {
        lease: OTHER,
        then: 1,
        now: 2,
    };
    notes(
        &rt,
        &changed,
        "  changed 00020000-0001-8000-8000-000000000022 1 2",
    )?;
    Ok(())
}
