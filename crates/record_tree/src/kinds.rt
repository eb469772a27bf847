//! What the kind of a record says of its claim.
ghost use Rattle.std.specs.Prelude.{◌≡◌};
ghost use Rattle.claim_map.specs.Claims.{bucket_of as the_bucket, continues_route as does_go_on, subject_of as the_subject};
ghost use Rattle.claim_map.specs.Rules.{is_named as has_name};
ghost use Rattle.record_tree.specs.Answer.{is_routed as has_route};

use claim_types::{Bucket, Kind, Subject};

pub fn bucket_of(kind: Kind) -> Bucket
    ensures { result ≡ the_bucket kind }
{
    match kind {
        Kind::Organization => Bucket::OrganizationPath,
        Kind::Group | Kind::Project | Kind::User => Bucket::Route,
        Kind::Key => Bucket::SshKey,
        Kind::Address => Bucket::Address,
        Kind::Domain => Bucket::PagesDomain,
    }
}

/// Whether its route goes on from that of the record above it.
pub fn goes_on(kind: Kind) -> bool
    ensures { result ≡ does_go_on kind }
{
    matches!(kind, Kind::Group | Kind::Project)
}

/// Whether it claims a route.
pub fn is_routed(kind: Kind) -> bool
    ensures { result ≡ has_route kind }
{
    matches!(kind, Kind::Group | Kind::Project | Kind::User)
}

/// Whether its name is a part of a path.
pub fn is_named(kind: Kind) -> bool
    ensures { result ≡ has_name kind }
{
    matches!(
        kind,
        Kind::Organization | Kind::Group | Kind::Project | Kind::User
    )
}

pub fn subject_of(kind: Kind, id: u64, parent: u64) -> Subject
    ensures { result ≡ the_subject kind id parent }
{
    match kind {
        Kind::Key | Kind::Address => Subject {
            kind: Kind::User,
            id: parent,
        },
        Kind::Domain => Subject {
            kind: Kind::Project,
            id: parent,
        },
        _ => Subject { kind, id },
    }
}
