ghost use Rattle.claim_types.specs.Leases.{IsLease};

use super::*;
use std::alloc::Global;
use std::cmp::Ordering;
use std::test::Fail;
use uuid::Uuid;

// The words that no path begins with.
const RESERVED: [&str; 12] = [
    "admin",
    "api",
    "assets",
    "dashboard",
    "explore",
    "files",
    "help",
    "import",
    "oauth",
    "profile",
    "search",
    "uploads",
];

// Whether a bucket reads exactly this key from a text.
fn gives(alloc: Global, bucket: Bucket, text: &[u8], value: &[u8]) -> bool {
    match ClaimKey::read(alloc, bucket, text) {
        Ok(key) => key.bucket == bucket && key.value.as_slice() == value,
        Err(_) => false,
    }
}

// Whether a bucket takes a text as it stands.
fn takes(alloc: Global, bucket: Bucket, text: &[u8]) -> bool {
    gives(alloc, bucket, text, text)
}

fn fault(alloc: Global, bucket: Bucket, text: &[u8]) -> Option<KeyFault> {
    match ClaimKey::read(alloc, bucket, text) {
        Ok(_) => None,
        Err(fault) => Some(fault),
    }
}

#[test]
fn reads_keys(rt: HostRuntime) {
    let alloc = rt.alloc();
    let table = [
        (Bucket::Route, "Acme/App", "acme/app"),
        (Bucket::Route, "acme/api", "acme/api"),
        (Bucket::Route, "acme/app.gitx", "acme/app.gitx"),
        (Bucket::Route, "_/a.git.9", "_/a.git.9"),
        (Bucket::OrganizationPath, "_A.b-9", "_a.b-9"),
        (Bucket::OrganizationPath, "apis", "apis"),
        (
            Bucket::Address,
            "~Admin/-x.git@[::1]!",
            "~admin/-x.git@[::1]!",
        ),
        (Bucket::PagesDomain, "Www.A-1.Example", "www.a-1.example"),
        (Bucket::PagesDomain, "api.0", "api.0"),
    ];
    for (bucket, text, value) in table {
        let holds = gives(alloc, bucket, text.as_bytes(), value.as_bytes());
        assert!(rt; holds, "at {text}");
    }
}

#[test]
fn refuses_bytes_outside_the_alphabet(rt: HostRuntime) {
    let alloc = rt.alloc();
    let table = [
        (Bucket::OrganizationPath, "a/b", 1),
        (Bucket::Route, "acme/a b", 6),
        (Bucket::Route, "-/b@", 3),
        (Bucket::Address, "a\"b", 1),
        (Bucket::Address, "ab\\", 2),
        (Bucket::Address, " ", 0),
        (Bucket::Address, "a\u{7f}", 1),
        (Bucket::Address, "abc\u{e9}", 3),
        (Bucket::SshKey, "0g", 1),
        (Bucket::SshKey, "afAF09-", 6),
        (Bucket::PagesDomain, "a_b.c", 1),
        (Bucket::PagesDomain, "a/b", 1),
    ];
    for (bucket, text, at) in table {
        let found = fault(alloc, bucket, text.as_bytes());
        assert_eq!(rt; found, Some(KeyFault::BadByte { at }), "at {text}");
    }
}

#[test]
fn refuses_bad_segments(rt: HostRuntime) {
    let alloc = rt.alloc();
    let table = [
        (Bucket::Route, "acme//app", 1),
        (Bucket::Route, "acme/app.git", 1),
        (Bucket::Route, "acme/App.ATOM/x", 1),
        (Bucket::Route, "-/x", 0),
        (Bucket::Route, "/", 0),
        (Bucket::Route, "acme/", 1),
        (Bucket::Route, "a/b/.c", 2),
        (Bucket::Route, "api//x", 1),
        (Bucket::OrganizationPath, "a.", 0),
        (Bucket::OrganizationPath, ".git", 0),
        (Bucket::PagesDomain, "example", 1),
        (Bucket::PagesDomain, ".a", 0),
        (Bucket::PagesDomain, "a.-b", 1),
        (Bucket::PagesDomain, "a-.b", 0),
        (Bucket::PagesDomain, "a.b.", 2),
    ];
    for (bucket, text, index) in table {
        let found = fault(alloc, bucket, text.as_bytes());
        assert_eq!(rt; found, Some(KeyFault::BadSegment { index }), "at {text}");
    }
}

#[test]
fn refuses_the_reserved_words(rt: HostRuntime) -> Result<(), Fail> {
    let alloc = rt.alloc();
    let reserved = Some(KeyFault::Reserved);
    for word in RESERVED {
        let first = format!(in alloc; "{word}/x")?;
        let second = format!(in alloc; "x/{word}")?;
        let longer = format!(in alloc; "{word}s/x")?;
        let alone = word.as_bytes();
        assert_eq!(rt; fault(alloc, Bucket::Route, alone), reserved, "at {word}");
        assert_eq!(rt;
            fault(alloc, Bucket::OrganizationPath, alone),
            reserved,
            "at {word}"
        );
        assert_eq!(rt;
            fault(alloc, Bucket::Route, first.as_bytes()),
            reserved,
            "at {word}"
        );
        assert!(rt; takes(alloc, Bucket::Route, second.as_bytes()), "at {word}");
        assert!(rt; takes(alloc, Bucket::Route, longer.as_bytes()), "at {word}");
        assert!(rt; takes(alloc, Bucket::Address, alone), "at {word}");
    }
    assert_eq!(rt; fault(alloc, Bucket::Route, b"API/x"), reserved);
    Ok(())
}

#[test]
fn bounds_a_key_and_its_segments(rt: HostRuntime) {
    let alloc = rt.alloc();
    let a = [b'a'; 256];
    for bucket in [
        Bucket::OrganizationPath,
        Bucket::Route,
        Bucket::Address,
        Bucket::SshKey,
        Bucket::PagesDomain,
    ] {
        assert_eq!(rt; fault(alloc, bucket, b""), Some(KeyFault::Empty));
        assert_eq!(rt; fault(alloc, bucket, &a), Some(KeyFault::TooLong));
        assert_eq!(rt; fault(alloc, bucket, &[b' '; 256]), Some(KeyFault::TooLong));
    }
    let bad = Some(KeyFault::BadSegment { index: 0 });
    assert!(rt; takes(alloc, Bucket::Address, &a[..255]));
    assert!(rt; takes(alloc, Bucket::OrganizationPath, &a[..63]));
    assert_eq!(rt; fault(alloc, Bucket::OrganizationPath, &a[..64]), bad);
    assert!(rt; takes(alloc, Bucket::Route, &a[..63]));
    assert_eq!(rt; fault(alloc, Bucket::Route, &a[..64]), bad);
    assert_eq!(rt; fault(alloc, Bucket::PagesDomain, &a[..64]), bad);
    assert_eq!(rt; fault(alloc, Bucket::SshKey, &a[..63]), bad);
    assert!(rt; takes(alloc, Bucket::SshKey, &a[..64]));
    assert!(rt; gives(alloc, Bucket::SshKey, &[b'A'; 64], &a[..64]));
    assert_eq!(rt; fault(alloc, Bucket::SshKey, &a[..65]), bad);
    assert_eq!(rt;
        fault(alloc, Bucket::SshKey, &[b'g'; 64]),
        Some(KeyFault::BadByte { at: 0 })
    );
}

#[test]
fn bounds_the_number_of_segments(rt: HostRuntime) {
    let alloc = rt.alloc();
    let twenty = b"a/b/c/d/e/f/g/h/i/j/k/l/m/n/o/p/q/r/s/t";
    let more = b"a/b/c/d/e/f/g/h/i/j/k/l/m/n/o/p/q/r/s/t/u";
    let bad_behind = b"a/b/c/d/e/f/g/h/i/j/k/l/m/n/o/p/q/r/s/t/-";
    let bad_before = b"a/b/c/d/e/f/g/h/i/j/k/l/m/n/o/p/q/r/s/-/u";
    assert!(rt; takes(alloc, Bucket::Route, twenty));
    let found = fault(alloc, Bucket::Route, more);
    assert_eq!(rt; found, Some(KeyFault::BadSegment { index: 20 }));
    let found = fault(alloc, Bucket::Route, bad_behind);
    assert_eq!(rt; found, Some(KeyFault::BadSegment { index: 20 }));
    let found = fault(alloc, Bucket::Route, bad_before);
    assert_eq!(rt; found, Some(KeyFault::BadSegment { index: 19 }));
    assert!(rt; takes(alloc, Bucket::PagesDomain, b"a.b.c.d.e.f.g.h"));
    let found = fault(alloc, Bucket::PagesDomain, b"a.b.c.d.e.f.g.h.i");
    assert_eq!(rt; found, Some(KeyFault::BadSegment { index: 8 }));
    let found = fault(alloc, Bucket::PagesDomain, b"a.b.c.d.e.f.g.-h.i");
    assert_eq!(rt; found, Some(KeyFault::BadSegment { index: 7 }));
}

// Whether the lease's text is this, and the text names the lease.
fn is_named(lease: LeaseId, text: &str) -> bool
    requires { IsLease lease }
{
    let mut room = Uuid::encode_buffer();
    let written = lease.to_uuid().hyphenated().encode_lower(&mut room) == text;
    written && read_lease(text) == Some(lease)
}

fn read_lease(text: &str) -> Option<LeaseId> {
    match Uuid::parse_str(text) {
        Ok(id) => LeaseId::from_uuid(id),
        Err(_) => None,
    }
}

#[test]
fn leases_have_their_texts(rt: HostRuntime) {
    let least = LeaseId {
        cell: 1,
        epoch: 1,
        attempt: 1,
    };
    let other = LeaseId {
        cell: 16,
        epoch: 258,
        attempt: 4_611_686_018_427_387_903,
    };
    let greatest = LeaseId {
        cell: 999,
        epoch: 4_294_967_295,
        attempt: 4_611_686_018_427_387_903,
    };
    assert!(rt; is_named(least, "00010000-0001-8000-8000-000000000001"));
    assert!(rt; is_named(other, "00100000-0102-8000-bfff-ffffffffffff"));
    assert!(rt; is_named(greatest, "03e7ffff-ffff-8000-bfff-ffffffffffff"));
    let id = Uuid::from_bytes([
        0x00, 0x10, 0x00, 0x00, 0x01, 0x02, 0x80, 0x00, 0xbf, 0xff, 0xff, 0xff, 0xff, 0xff, 0xff,
        0xff,
    ]);
    assert!(rt; other.to_uuid() == id);
    assert!(rt; LeaseId::from_uuid(id) == Some(other));
}

#[test]
fn other_texts_name_no_lease(rt: HostRuntime) {
    let table = [
        ("cell 0", "00000000-0001-8000-8000-000000000001"),
        ("cell 1000", "03e80000-0001-8000-8000-000000000001"),
        ("epoch 0", "00010000-0000-8000-8000-000000000001"),
        ("attempt 0", "00010000-0001-8000-8000-000000000000"),
        ("version 4", "00010000-0001-4000-8000-000000000001"),
        (
            "a bit behind the version",
            "00010000-0001-8800-8000-000000000001",
        ),
        (
            "a bit before the variant",
            "00010000-0001-8001-8000-000000000001",
        ),
        ("variant 00", "00010000-0001-8000-0000-000000000001"),
        ("variant 01", "00010000-0001-8000-4000-000000000001"),
        ("variant 11", "00010000-0001-8000-c000-000000000001"),
    ];
    for (what, text) in table {
        let id = Uuid::parse_str(text);
        assert!(rt; id.is_ok(), "{what}");
        assert!(rt; read_lease(text).is_none(), "{what}");
    }
}

#[test]
fn buckets_have_their_numbers_and_names(rt: HostRuntime) {
    let table = [
        (1, "organization_path"),
        (2, "route"),
        (3, "address"),
        (4, "ssh_key"),
        (5, "pages_domain"),
    ];
    for (number, name) in table {
        let found = Bucket::from_number(number);
        assert!(rt; found.is_some(), "at {name}");
        assert_eq!(rt; found, Bucket::from_name(name), "at {name}");
        assert_eq!(rt;
            found.map(|bucket| bucket.number()),
            Some(number),
            "at {name}"
        );
        assert!(rt;
            found.map(|bucket| bucket.name()) == Some(name),
            "at {name}"
        );
    }
    assert_eq!(rt; Bucket::from_number(0), None);
    assert_eq!(rt; Bucket::from_number(6), None);
    assert_eq!(rt; Bucket::from_name("Route"), None);
}

#[test]
fn kinds_have_their_numbers_and_names(rt: HostRuntime) {
    let table = [
        (1, "organization", true),
        (2, "group", true),
        (3, "project", true),
        (4, "user", true),
        (5, "key", false),
        (6, "address", false),
        (7, "domain", false),
    ];
    for (number, name, is_subject) in table {
        let found = Kind::from_number(number);
        assert!(rt; found.is_some(), "at {name}");
        assert_eq!(rt; found.map(|kind| kind.number()), Some(number), "at {name}");
        assert!(rt; found.map(|kind| kind.name()) == Some(name), "at {name}");
        let subject = Kind::subject_from_name(name);
        assert_eq!(rt; subject, if is_subject { found } else { None }, "at {name}");
    }
    assert_eq!(rt; Kind::from_number(0), None);
    assert_eq!(rt; Kind::from_number(8), None);
}

fn lease(cell: u16, epoch: u32, attempt: u64) -> LeaseId {
    LeaseId {
        cell,
        epoch,
        attempt,
    }
}

#[test]
fn keys_and_leases_are_ordered(rt: HostRuntime) -> Result<(), Fail> {
    let alloc = rt.alloc();
    let keys = [
        ClaimKey::read(alloc, Bucket::OrganizationPath, b"b")?,
        ClaimKey::read(alloc, Bucket::Route, b"a")?,
        ClaimKey::read(alloc, Bucket::Route, b"a.b")?,
        ClaimKey::read(alloc, Bucket::Route, b"a/b")?,
        ClaimKey::read(alloc, Bucket::PagesDomain, b"a.a")?,
    ];
    let leases = [
        lease(1, 1, 2),
        lease(1, 2, 1),
        lease(1, 2, 2),
        lease(2, 1, 1),
    ];
    for n in 1..keys.len() {
        assert!(rt; keys[n - 1] < keys[n], "key {n}");
    }
    assert_eq!(rt; key_order(&keys[4], &keys[0]), Ordering::Greater);
    assert_eq!(rt; lease_order(leases[0], leases[3]), Ordering::Less);
    for n in 1..leases.len() {
        assert!(rt; leases[n - 1] < leases[n], "lease {n}");
    }
    Ok(())
}

#[test]
fn copies_are_equal(rt: HostRuntime) -> Result<(), Fail> {
    let alloc = rt.alloc();
    let mut operations = Operations {
        creates: Items::new(alloc),
        destroys: Items::new(alloc),
    };
    operations.creates.push(Create {
        key: ClaimKey::read(alloc, Bucket::Route, b"acme")?,
        subject: Subject {
            kind: Kind::Group,
            id: 7,
        },
        origin: Origin {
            table: Kind::Group,
            row: 7,
        },
    })?;
    let first = operations.copy(alloc)?;
    operations
        .destroys
        .push(ClaimKey::read(alloc, Bucket::Address, b"a@b")?)?;
    let second = operations.copy(alloc)?;
    assert!(rt; second == operations);
    assert!(rt; first != operations);
    assert_eq!(rt; first.creates.len(), 1);
    assert!(rt; first.destroys.is_empty());
    Ok(())
}
