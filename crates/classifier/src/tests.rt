ghost use Rattle.std.specs.Prelude.{◌≡◌, IfOk};
ghost use Rattle.std.specs.FinMap as map;
ghost use Rattle.claim_types.specs.Bounds.{IsCell};
ghost use Rattle.claim_map.specs.Bounds.{AreHeld};

use crate::classify;
use cell_registry::Registry;
use claim_types::{
    Bucket, ClaimKey, Class, Holding, Kind, NoMemory, Origin, Question, Subject, Text,
};
use lease_core::Leases;
use std::alloc::Global;
use std::test::Fail;

const TWO_CELLS: &[u8] = b"
[[cell]]
id = 7
prefix = 'cell-7-'
width = 1000
[[cell]]
id = 2
prefix = 'cell-2-'
width = 1000
";

// A route is held by a group of this cell.
#[tactic(none)]
fn hold(alloc: Global, leases: &mut Leases, value: &[u8], cell: u16) -> Result<(), Fail>
    requires cell { IsCell cell }
    requires empty { leases.old.open_leases ≡ map.empty }
    requires held { AreHeld leases.old.holder }
    ensures empty { leases.new.open_leases ≡ map.empty }
    ensures held { AreHeld leases.new.holder }
{
    let holding = Holding {
        cell,
        subject: Subject {
            kind: Kind::Group,
            id: 2,
        },
        origin: Origin {
            table: Kind::Group,
            row: 2,
        },
    };
    let key = ClaimKey::read(alloc, Bucket::Route, value)?;
    leases.hold(key, holding)?;
    Ok(())
}

// Cell 7 holds `acme`, and cell 2 `acme/x/y`.
fn some_routes(alloc: Global) -> Result<Leases, Fail>
    ensures { IfOk result (λ leases. AreHeld leases.holder) }
{
    let mut leases = Leases::new(alloc);
    hold(alloc, &mut leases, b"acme", 7)?;
    hold(alloc, &mut leases, b"acme/x/y", 2)?;
    Ok(leases)
}

fn path_class(
    alloc: Global,
    leases: &Leases,
    registry: &Registry,
    path: &[u8],
) -> Result<Class, NoMemory>
    requires { AreHeld leases.now.holder }
{
    let text = Text::from_slice(alloc, path)?;
    Ok(classify(leases, registry, &Question::Path { text }))
}

fn is_class(leases: &Leases, registry: &Registry, question: &Question, class: Class) -> bool
    requires { AreHeld leases.now.holder }
{
    classify(leases, registry, question) == class
}

// What is not a path: the first cell, cells by number, a session, a whole key.
fn others_have_their_class(
    alloc: Global,
    leases: &Leases,
    registry: &Registry,
) -> Result<bool, Fail>
    requires { AreHeld leases.now.holder }
{
    let session = Question::Session {
        text: Text::from_slice(alloc, b"cell-2-abc")?,
    };
    let claim = Question::Claim {
        key: ClaimKey::read(alloc, Bucket::Route, b"acme/x")?,
    };
    let known = Question::Cell { id: 2 };
    let unknown = Question::Cell { id: 9 };
    Ok(
        is_class(leases, registry, &Question::First, Class::Cell { id: 7 })
            && is_class(leases, registry, &known, Class::Cell { id: 2 })
            && is_class(leases, registry, &unknown, Class::UnknownCell)
            && is_class(leases, registry, &session, Class::Cell { id: 2 })
            && is_class(leases, registry, &claim, Class::NotFound),
    )
}

// The longest held route that is the path or stands above it answers.
fn paths_have_their_class(
    alloc: Global,
    leases: &Leases,
    registry: &Registry,
) -> Result<bool, NoMemory>
    requires { AreHeld leases.now.holder }
{
    let rows = [
        (b"acme".as_slice(), Class::Cell { id: 7 }),
        (b"acme/x", Class::Cell { id: 7 }),
        (b"acme/x/y", Class::Cell { id: 2 }),
        (b"acme/x/y/z", Class::Cell { id: 2 }),
        (b"acme/x/yy", Class::Cell { id: 7 }),
        (b"acmex", Class::NotFound),
        (b"", Class::NotFound),
        (b"/acme", Class::NotFound),
    ];
    for (path, class) in rows {
        if path_class(alloc, leases, registry, path)? != class {
            return Ok(false);
        }
    }
    Ok(true)
}

#[test]
fn each_question_has_its_class(rt: HostRuntime) -> Result<(), Fail> {
    let alloc = rt.alloc();
    let Ok(registry) = Registry::read_toml(alloc, TWO_CELLS) else {
        assert!(rt; false);
        return Ok(());
    };
    let leases = some_routes(alloc)?;
    assert!(rt; others_have_their_class(alloc, &leases, &registry)?);
    assert!(rt; paths_have_their_class(alloc, &leases, &registry)?);
    Ok(())
}
