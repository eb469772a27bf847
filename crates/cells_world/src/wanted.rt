//! The change that a line of a script asks for.
ghost use Rattle.std.specs.Prelude.{◌≡◌, ◌≤◌, ◌==◌, IfOk, IfSome, length, position, reverse};
ghost use Rattle.cells_world.specs.Wanted as spec;
ghost use Rattle.claim_types.specs.declared.key.Bucket.TheVariants.{OrganizationPath};
ghost use Rattle.claim_types.specs.declared.record.Change.TheVariants.{Create, Rename};
ghost use Rattle.claim_types.specs.declared.record.Kind.TheVariants.{Organization};

use cells_base::{NoMemory, Text};
use cells_script::Line;
use claim_types::{Bucket, Change, ClaimKey, KeyFault, Kind, lowered};
use record_tree::Tree;
use std::alloc::Global;

// The record that claims what a text names in a bucket, 0 if there is none.
fn record_named(alloc: Global, tree: &Tree, bucket: Bucket, text: &[u8]) -> Result<u64, NoMemory>
    ensures { IfOk result (λ id. id ≡ spec.record_named tree.now bucket text.now) }
{
    match ClaimKey::read(alloc, bucket, text) {
        Ok(key) => Ok(tree.find(&key).unwrap_or(0)),
        Err(KeyFault::Memory) => Err(NoMemory),
        Err(_) => Ok(0),
    }
}

// How many bytes stand behind the last slash of a route, if it has one.
fn behind_slash(route: &[u8]) -> Option<usize>
    ensures { result ≡ position (λ b. b == 47) (reverse route.now) }
{
    route.iter().rev().position(|b| *b == b'/')
}

// The place behind the last slash of a route, if it has one.
fn behind_last_slash(route: &[u8]) -> Option<usize>
    ensures value { result ≡ spec.behind_last_slash route.now }
    ensures within { IfSome result (λ at. (1 ≤ at) × (at ≤ length route.now)) }
{
    match behind_slash(route) {
        Some(count) => Some(route.len() - count),
        None => None,
    }
}

// A record of this kind at a route, below what stands before its last slash.
fn created_at(alloc: Global, tree: &Tree, kind: Kind, route: &[u8]) -> Result<Change, NoMemory>
    ensures { IfOk result (λ change. change ≡ spec.created_at tree.now kind route.now) }
{
    match behind_last_slash(route) {
        Some(at) => Ok(Change::Create {
            kind,
            parent: record_named(alloc, tree, Bucket::Route, &route[..at - 1])?,
            name: lowered(alloc, &route[at..])?,
        }),
        None => Ok(Change::Create {
            kind,
            parent: 0,
            name: lowered(alloc, route)?,
        }),
    }
}

// A record of this kind and name, below the one that a text names in a bucket.
fn created_below(
    alloc: Global,
    tree: &Tree,
    kind: Kind,
    name: &Text,
    bucket: Bucket,
    above: &Text,
) -> Result<Change, NoMemory>
    ensures { IfOk result (λ change. change
        ≡ Create kind (spec.record_named tree.now bucket above.now) (spec.name_of name.now)) }
{
    Ok(Change::Create {
        kind,
        parent: record_named(alloc, tree, bucket, above.as_slice())?,
        name: lowered(alloc, name.as_slice())?,
    })
}

// A record of this kind and name, in the organization that a text names.
fn created_in(
    alloc: Global,
    tree: &Tree,
    kind: Kind,
    name: &Text,
    organization: &Text,
) -> Result<Change, NoMemory>
    ensures { IfOk result (λ change. change
        ≡ Create kind (spec.record_named tree.now OrganizationPath organization.now) (spec.name_of name.now)) }
{
    let bucket = Bucket::OrganizationPath;
    created_below(alloc, tree, kind, name, bucket, organization)
}

// An organization of this name.
fn created_alone(alloc: Global, name: &Text) -> Result<Change, NoMemory>
    ensures { IfOk result (λ change. change ≡ Create Organization 0 (spec.name_of name.now)) }
{
    Ok(Change::Create {
        kind: Kind::Organization,
        parent: 0,
        name: lowered(alloc, name.as_slice())?,
    })
}

// The record that a text names gets this name.
fn renamed(
    alloc: Global,
    tree: &Tree,
    bucket: Bucket,
    value: &Text,
    name: &Text,
) -> Result<Change, NoMemory>
    ensures { IfOk result (λ change. change
        ≡ Rename (spec.record_named tree.now bucket value.now) (spec.name_of name.now)) }
{
    Ok(Change::Rename {
        id: record_named(alloc, tree, bucket, value.as_slice())?,
        name: lowered(alloc, name.as_slice())?,
    })
}

/// The change that a line asks of a tree, if it asks for one. Names are looked up in the claims of the tree.
pub fn change_wanted(alloc: Global, line: &Line, tree: &Tree) -> Result<Option<Change>, NoMemory>
    ensures { IfOk result (λ change. change ≡ spec.change_wanted line.now tree.now) }
{
    let change = match line {
        Line::CreateOrganization { name, .. } => created_alone(alloc, name)?,
        Line::CreateUser {
            name,
            organization,
            ..
        } => created_in(alloc, tree, Kind::User, name, organization)?,
        Line::CreateTopGroup {
            name,
            organization,
            ..
        } => created_in(alloc, tree, Kind::Group, name, organization)?,
        Line::CreateGroup { route, .. } => {
            created_at(alloc, tree, Kind::Group, route.as_slice())?
        }
        Line::CreateProject { route, .. } => {
            created_at(alloc, tree, Kind::Project, route.as_slice())?
        }
        Line::CreateKey { user, value, .. } => {
            created_below(alloc, tree, Kind::Key, value, Bucket::Route, user)?
        }
        Line::CreateAddress { user, value, .. } => {
            created_below(alloc, tree, Kind::Address, value, Bucket::Route, user)?
        }
        Line::CreateDomain { route, value, .. } => {
            created_below(alloc, tree, Kind::Domain, value, Bucket::Route, route)?
        }
        Line::Rename {
            bucket,
            value,
            name,
            ..
        } => renamed(alloc, tree, *bucket, value, name)?,
        Line::Remove { bucket, value, .. } => Change::Remove {
            id: record_named(alloc, tree, *bucket, value.as_slice())?,
        },
        _ => return Ok(None),
    };
    Ok(Some(change))
}
