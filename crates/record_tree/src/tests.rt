ghost use Rattle.std.specs.Prelude.{IfOk};
ghost use Rattle.record_tree.specs.Known.{IsWithin};

use crate::*;
use claim_types::{Bucket, ClaimKey, Copied, Kind, NoMemory, Operations, Range, Text};
use std::alloc::Global;
use std::process::Abort;
use std::test::Fail;

const KNOWN: [Range; 1] = [Range {
    cell: 1,
    number: 1,
    low: 1,
    high: 1_000,
}];

// A tree without records, that has used so many identifiers and changed so often.
fn started(alloc: Global, used: u64, version: u64) -> Tree
    ensures { IsWithin result KNOWN }
{
    Tree::start(alloc, used, version)
}

// Adds a record as it is, or says that it may not be added.
fn with(
    alloc: Global,
    tree: &mut Tree,
    id: u64,
    kind: Kind,
    parent: u64,
    name: &[u8],
) -> Result<bool, NoMemory>
    requires { IsWithin tree.old KNOWN }
    ensures { IsWithin tree.new KNOWN }
{
    let name = Text::from_slice(alloc, name)?;
    let item = Record {
        id,
        kind,
        parent,
        name,
    };
    tree.add(alloc, item, &KNOWN)
}

// Organization `o` is record 1, group `g` below it 2, project `p` below that 3, and user `u` 4, where
// so many identifiers were used.
fn some_records(alloc: Global, used: u64) -> Result<Tree, NoMemory>
    ensures { IfOk result (λ tree. IsWithin tree KNOWN) }
{
    let mut tree = started(alloc, used, 0);
    with(alloc, &mut tree, 1, Kind::Organization, 0, b"o")?;
    with(alloc, &mut tree, 2, Kind::Group, 1, b"g")?;
    with(alloc, &mut tree, 3, Kind::Project, 2, b"p")?;
    with(alloc, &mut tree, 4, Kind::User, 1, b"u")?;
    Ok(tree)
}

// A record of each kind, whose identifier is the number of its kind: those four, and behind them a key
// and an address of the user, and a domain of the project.
fn one_of_each_kind(alloc: Global) -> Result<Tree, NoMemory>
    ensures { IfOk result (λ tree. IsWithin tree KNOWN) }
{
    let mut tree = some_records(alloc, 7)?;
    with(alloc, &mut tree, 5, Kind::Key, 4, &[b'0'; 64])?;
    with(alloc, &mut tree, 6, Kind::Address, 4, b"u@o")?;
    with(alloc, &mut tree, 7, Kind::Domain, 3, b"p.example")?;
    Ok(tree)
}

// Organization `o` is record 1, and each of so many groups of one name stands below the record before it.
fn nested_groups(alloc: Global, groups: u8, name: &[u8]) -> Result<Tree, NoMemory>
    ensures { IfOk result (λ tree. IsWithin tree KNOWN) }
{
    let mut tree = started(alloc, 100, 0);
    with(alloc, &mut tree, 1, Kind::Organization, 0, b"o")?;
    for group in 0..groups {
        let above = u64::from(group) + 1;
        with(alloc, &mut tree, above + 1, Kind::Group, above, name)?;
    }
    Ok(tree)
}

// Organization `o` is record 1, record 2 below it is of this kind, and below that are so many projects.
fn with_projects(alloc: Global, kind: Kind, projects: u8) -> Result<Tree, NoMemory>
    ensures { IfOk result (λ tree. IsWithin tree KNOWN) }
{
    let mut tree = started(alloc, 100, 0);
    with(alloc, &mut tree, 1, Kind::Organization, 0, b"o")?;
    with(alloc, &mut tree, 2, kind, 1, b"x")?;
    for project in 0..projects {
        let name = [b'0' + project / 10, b'0' + project % 10];
        with(
            alloc,
            &mut tree,
            3 + u64::from(project),
            Kind::Project,
            2,
            &name,
        )?;
    }
    Ok(tree)
}

fn operations(alloc: Global, tree: &Tree, change: Change) -> Result<Operations, Rule>
    requires { IsWithin tree.now KNOWN }
{
    tree.operations_of(alloc, &change, &KNOWN)
}

// The first rule that speaks against a change.
fn refusal(alloc: Global, tree: &Tree, change: Change) -> Option<Rule>
    requires { IsWithin tree.now KNOWN }
{
    operations(alloc, tree, change).err()
}

fn create(alloc: Global, kind: Kind, parent: u64, name: &[u8]) -> Result<Change, NoMemory> {
    let name = Text::from_slice(alloc, name)?;
    Ok(Change::Create { kind, parent, name })
}

fn rename(alloc: Global, id: u64, name: &[u8]) -> Result<Change, NoMemory> {
    let name = Text::from_slice(alloc, name)?;
    Ok(Change::Rename { id, name })
}

fn is_route(key: &ClaimKey, value: &[u8]) -> bool {
    key.bucket == Bucket::Route && key.value.as_slice() == value
}

// Whether the create in this place is of a route, for the record with this identifier.
fn creates(ops: &Operations, at: usize, row: u64, value: &[u8]) -> bool {
    match ops.creates.as_slice().get(at) {
        Some(create) => create.origin.row == row && is_route(&create.key, value),
        None => false,
    }
}

// Whether the destroyed key in this place is a route.
fn destroys(ops: &Operations, at: usize, value: &[u8]) -> bool {
    match ops.destroys.as_slice().get(at) {
        Some(key) => is_route(key, value),
        None => false,
    }
}

#[test]
fn a_rename_takes_what_is_below_along(rt: HostRuntime) -> Result<(), Fail> {
    let alloc = rt.alloc();
    let tree = some_records(alloc, 4)?;
    let ops = operations(alloc, &tree, rename(alloc, 2, b"H")?)?;
    assert!(rt; ops.creates.len() == 2 && ops.destroys.len() == 2);
    assert!(rt; creates(&ops, 0, 2, b"h") && creates(&ops, 1, 3, b"h/p"));
    assert!(rt; destroys(&ops, 0, b"g") && destroys(&ops, 1, b"g/p"));
    assert!(rt; tree.find_path(b"g/p/issues") == Some(3) && tree.find_path(b"gp").is_none());
    Ok(())
}

#[test]
fn each_rule_speaks_in_its_turn(rt: HostRuntime) -> Result<(), Fail> {
    let alloc = rt.alloc();
    let tree = some_records(alloc, 4)?;
    let below_nothing = create(alloc, Kind::User, 9, b"a/b")?;
    assert!(rt;
        matches!(
            refusal(alloc, &tree, below_nothing),
            Some(Rule::NoSuchRecord)
        )
    );
    let below_group = create(alloc, Kind::User, 2, b"a/b")?;
    assert!(rt; matches!(refusal(alloc, &tree, below_group), Some(Rule::WrongKind)));
    let reserved = create(alloc, Kind::User, 1, b"api")?;
    assert!(rt; matches!(refusal(alloc, &tree, reserved), Some(Rule::BadName)));
    let same = rename(alloc, 2, b"G")?;
    assert!(rt; matches!(refusal(alloc, &tree, same), Some(Rule::Same)));
    let again = create(alloc, Kind::User, 1, b"U")?;
    assert!(rt; matches!(refusal(alloc, &tree, again), Some(Rule::TakenHere { .. })));
    assert!(rt;
        matches!(
            refusal(alloc, &tree, Change::Remove { id: 2 }),
            Some(Rule::HasChildren)
        )
    );
    Ok(())
}

#[test]
fn identifiers_and_versions_may_be_spent(rt: HostRuntime) -> Result<(), Fail> {
    let alloc = rt.alloc();
    let spent = started(alloc, 1_000, 0);
    let change = create(alloc, Kind::Organization, 0, b"o")?;
    assert!(rt; matches!(refusal(alloc, &spent, change), Some(Rule::NoIds)));
    let last = started(alloc, 0, u64::MAX);
    let change = create(alloc, Kind::Organization, 0, b"o")?;
    assert!(rt; matches!(refusal(alloc, &last, change), Some(Rule::VersionSpent)));
    Ok(())
}

#[test]
fn a_record_is_added_where_it_may_be(rt: HostRuntime) -> Result<(), Fail> {
    let alloc = rt.alloc();
    let mut tree = some_records(alloc, 4)?;
    assert!(rt; tree.records().len() == 4 && tree.claims(alloc)?.len() == 4);
    assert!(rt; !with(alloc, &mut tree, 5, Kind::User, 1, b"v")?);
    assert!(rt; !with(alloc, &mut tree, 4, Kind::User, 1, b"v")?);
    let key = ClaimKey::read(alloc, Bucket::Route, b"g/p")?;
    assert!(rt; tree.find(&key) == Some(3) && tree.used() == 4 && tree.version() == 0);
    Ok(())
}

// How a table writes an answer: the operations, no such record, a wrong kind, or another rule.
fn letter(answer: Option<Rule>) -> u8 {
    match answer {
        None => b'+',
        Some(Rule::NoSuchRecord) => b'n',
        Some(Rule::WrongKind) => b'w',
        Some(_) => b'?',
    }
}

// The answers to the create of a record below each of the identifiers from 0 to 8.
fn letters(alloc: Global, tree: &Tree, kind: Kind, name: &[u8]) -> Result<[u8; 9], NoMemory>
    requires { IsWithin tree.now KNOWN }
{
    let mut letters = [0; 9];
    for parent in 0..9 {
        let change = create(alloc, kind, parent as u64, name)?;
        letters[parent] = letter(refusal(alloc, tree, change));
    }
    Ok(letters)
}

#[test]
fn each_kind_stands_below_its_own(rt: HostRuntime) -> Result<(), Fail> {
    let alloc = rt.alloc();
    let tree = one_of_each_kind(alloc)?;
    assert_eq!(rt; tree.records().len(), 7);
    let fingerprint = [b'a'; 64];
    // Of each kind, with a name that it may have, the answers below nothing; below an organization, a
    // group, a project, a user, a key, an address and a domain; and below an identifier without a record.
    let rows = [
        (Kind::Organization, b"x".as_slice(), b"+wwwwwwwn"),
        (Kind::Group, b"x", b"n++wwwwwn"),
        (Kind::Project, b"x", b"nw+w+wwwn"),
        (Kind::User, b"x", b"n+wwwwwwn"),
        (Kind::Key, &fingerprint, b"nwww+wwwn"),
        (Kind::Address, b"x@o", b"nwww+wwwn"),
        (Kind::Domain, b"x.example", b"nww+wwwwn"),
    ];
    for (kind, name, answers) in rows {
        let found = letters(alloc, &tree, kind, name)?;
        assert_eq!(rt; found.as_slice(), answers.as_slice(), "at {kind:?}");
    }
    Ok(())
}

#[test]
fn a_part_of_a_path_may_be_renamed(rt: HostRuntime) -> Result<(), Fail> {
    let alloc = rt.alloc();
    let tree = one_of_each_kind(alloc)?;
    // Of each identifier from 0 to 8, whether its record may have another name.
    for (id, answer) in b"n++++wwwn".iter().enumerate() {
        let change = rename(alloc, id as u64, b"x")?;
        let found = letter(refusal(alloc, &tree, change));
        assert_eq!(rt; found, *answer, "at {id}");
    }
    Ok(())
}

// Whether a name is as good or as bad as is said: no rule speaks against its change, or the one on names.
fn is_told(answer: Option<Rule>, good: bool) -> bool {
    match answer {
        None => good,
        Some(Rule::BadName) => !good,
        Some(_) => false,
    }
}

// Creates a record of each kind below each parent with each name, which is good or bad.
fn tells_names<R: AllocGlobal + Abort>(
    rt: &R,
    tree: &Tree,
    rows: &[(Kind, u64, &[u8], bool)],
) -> Result<(), NoMemory>
    requires { IsWithin tree.now KNOWN }
{
    let alloc = rt.alloc();
    for (kind, parent, name, good) in rows {
        let change = create(alloc, *kind, *parent, name)?;
        let told = is_told(refusal(alloc, tree, change), *good);
        assert!(rt; told, "{kind:?} below {parent}: {name:?}");
    }
    Ok(())
}

#[test]
fn a_part_of_a_path_is_named_as_a_segment(rt: HostRuntime) -> Result<(), Fail> {
    let tree = one_of_each_kind(rt.alloc())?;
    let rows = [
        (Kind::Organization, 0, b"".as_slice(), false),
        (Kind::Organization, 0, b"A_b.c-9", true),
        (Kind::Organization, 0, b"a/b", false),
        (Kind::Organization, 0, b"a b", false),
        (Kind::Organization, 0, b"-a", false),
        (Kind::Organization, 0, b"a.", false),
        (Kind::Organization, 0, b"Admin", false),
        (Kind::Group, 1, b"", false),
        (Kind::Group, 2, b"", false),
        (Kind::Group, 1, b"a/b", false),
        (Kind::Group, 2, b"a.Git", false),
        (Kind::Group, 1, b"uploads", false),
        (Kind::Group, 2, b"uploads", true),
        (Kind::Project, 2, b"", false),
        (Kind::Project, 2, b"a/b", false),
        (Kind::Project, 4, b"a.atom", false),
        (Kind::Project, 4, b"api", true),
        (Kind::User, 1, b"", false),
        (Kind::User, 1, b"a/b", false),
        (Kind::User, 1, b"a@b", false),
        (Kind::User, 1, b"_", true),
        (Kind::User, 1, b"search", false),
    ];
    tells_names(&rt, &tree, &rows)?;
    Ok(())
}

#[test]
fn what_is_no_part_of_a_path_is_named_as_its_key(rt: HostRuntime) -> Result<(), Fail> {
    let tree = one_of_each_kind(rt.alloc())?;
    let rows = [
        (Kind::Key, 4, b"".as_slice(), false),
        (Kind::Key, 4, &[b'F'; 64], true),
        (Kind::Key, 4, &[b'g'; 64], false),
        (Kind::Address, 4, b"", false),
        (Kind::Address, 4, b"!a/b~", true),
        (Kind::Address, 4, b"a b", false),
        (Kind::Address, 4, b"a\"b", false),
        (Kind::Address, 4, b"a\\b", false),
        (Kind::Address, 4, b"a\x7f", false),
        (Kind::Domain, 3, b"", false),
        (Kind::Domain, 3, b"a", false),
        (Kind::Domain, 3, b"A-1.b", true),
        (Kind::Domain, 3, b"a.b.", false),
        (Kind::Domain, 3, b"-a.b", false),
        (Kind::Domain, 3, b"a-.b", false),
        (Kind::Domain, 3, b"a_b.c", false),
        (Kind::Domain, 3, b"a/b.c", false),
        (Kind::Domain, 3, b"a.b.c.d.e.f.g.h", true),
        (Kind::Domain, 3, b"a.b.c.d.e.f.g.h.i", false),
    ];
    tells_names(&rt, &tree, &rows)?;
    Ok(())
}

#[test]
fn a_name_has_a_greatest_length(rt: HostRuntime) -> Result<(), Fail> {
    let tree = one_of_each_kind(rt.alloc())?;
    let a = [b'a'; 256];
    // Labels of 63, 63, 63 and 61 bytes, and behind them one of 1 or 2.
    let mut labels = [b'a'; 256];
    labels[63] = b'.';
    labels[127] = b'.';
    labels[191] = b'.';
    labels[253] = b'.';
    let rows = [
        (Kind::Organization, 0, &a[..63], true),
        (Kind::Organization, 0, &a[..64], false),
        (Kind::Group, 1, &a[..63], true),
        (Kind::Group, 1, &a[..64], false),
        (Kind::Project, 2, &a[..63], true),
        (Kind::Project, 2, &a[..64], false),
        (Kind::User, 1, &a[..63], true),
        (Kind::User, 1, &a[..64], false),
        (Kind::Key, 4, &a[..63], false),
        (Kind::Key, 4, &a[..64], true),
        (Kind::Key, 4, &a[..65], false),
        (Kind::Address, 4, &a[..255], true),
        (Kind::Address, 4, &a, false),
        (Kind::Domain, 3, &labels[..255], true),
        (Kind::Domain, 3, &labels, false),
    ];
    tells_names(&rt, &tree, &rows)?;
    Ok(())
}

#[test]
fn a_route_has_at_most_255_bytes(rt: HostRuntime) -> Result<(), Fail> {
    let alloc = rt.alloc();
    let a = [b'a'; 63];
    // The route of record 5 has segments of 63, 63, 63 and 1 bytes, 193 with what joins them.
    let mut tree = nested_groups(alloc, 3, &a)?;
    assert!(rt; with(alloc, &mut tree, 5, Kind::Group, 4, b"a")?);
    let rows = [
        (Kind::Group, 5, &a[..61], true),
        (Kind::Group, 5, &a[..62], false),
        (Kind::Project, 5, &a[..61], true),
        (Kind::Project, 5, &a[..62], false),
    ];
    tells_names(&rt, &tree, &rows)?;
    assert!(rt; with(alloc, &mut tree, 6, Kind::Project, 5, &a[..61])?);
    let as_long = rename(alloc, 5, b"b")?;
    assert!(rt; is_told(refusal(alloc, &tree, as_long), true));
    let longer = rename(alloc, 5, b"bb")?;
    assert!(rt; is_told(refusal(alloc, &tree, longer), false));
    Ok(())
}

#[test]
fn a_route_has_at_most_20_segments(rt: HostRuntime) -> Result<(), Fail> {
    let tree = nested_groups(rt.alloc(), 20, b"a")?;
    assert_eq!(rt; tree.records().len(), 21);
    // The route of record 20 has 19 segments, and that of record 21 has 20.
    let rows = [
        (Kind::Group, 20, b"b".as_slice(), true),
        (Kind::Group, 21, b"b", false),
        (Kind::Project, 20, b"b", true),
        (Kind::Project, 21, b"b", false),
    ];
    tells_names(&rt, &tree, &rows)?;
    Ok(())
}

// How many operations a change has, or how many the rule against too many names.
fn size(answer: Result<Operations, Rule>) -> Result<usize, u64> {
    match answer {
        Ok(ops) => Ok(ops.creates.as_slice().len() + ops.destroys.as_slice().len()),
        Err(Rule::TooMany { n }) => Err(n),
        Err(_) => Err(0),
    }
}

#[test]
fn a_rename_has_at_most_64_operations(rt: HostRuntime) -> Result<(), Fail> {
    let alloc = rt.alloc();
    let rows = [
        (Kind::Group, 0, 2, Ok(2)),
        (Kind::Group, 31, 2, Ok(64)),
        (Kind::Group, 32, 2, Err(66)),
        (Kind::User, 31, 2, Ok(64)),
        (Kind::User, 32, 2, Err(66)),
        (Kind::Group, 32, 1, Ok(2)),
        (Kind::Group, 32, 3, Ok(2)),
    ];
    for (kind, projects, id, answer) in rows {
        let tree = with_projects(alloc, kind, projects)?;
        let change = rename(alloc, id, b"y")?;
        let found = size(operations(alloc, &tree, change));
        assert_eq!(rt;
            found,
            answer,
            "record {id}, {projects} projects below {kind:?}"
        );
    }
    Ok(())
}

// Makes a change as a cell does: its operations are asked for, and then it is made.
fn make(alloc: Global, tree: &mut Tree, change: &Change) -> Result<(), Rule>
    requires { IsWithin tree.old KNOWN }
{
    let _ = tree.operations_of(alloc, change, &KNOWN)?;
    tree.apply(alloc, change, &KNOWN)?;
    Ok(())
}

#[test]
fn a_rename_with_64_operations_is_made(rt: HostRuntime) -> Result<(), Fail> {
    let alloc = rt.alloc();
    let mut tree = with_projects(alloc, Kind::User, 31)?;
    assert!(rt; with(alloc, &mut tree, 34, Kind::Key, 2, &[b'0'; 64])?);
    assert!(rt; with(alloc, &mut tree, 35, Kind::Address, 2, b"a@b")?);
    assert!(rt; with(alloc, &mut tree, 36, Kind::Domain, 33, b"a.b")?);
    let change = rename(alloc, 2, b"y")?;
    make(alloc, &mut tree, &change)?;
    assert!(rt; tree.version() == 1 && tree.records().len() == 36);
    assert!(rt; tree.find_path(b"y/30/a") == Some(33) && tree.find_path(b"x/30").is_none());
    Ok(())
}
