ghost use Rattle.std.specs.Prelude.{◌≡◌};
ghost use Rattle.std.specs.FinMap as map;
ghost use Rattle.claim_map.specs.Bounds.{AreHeld};
ghost use Rattle.claim_map.specs.Classification.{class_of, found_class, path_holder};

use cell_registry::Registry;
use claim_types::{Bucket, Class, Holding, Question, ROUTE_SEGMENTS};
use lease_core::Leases;

// Who holds the longest route that begins the text in whole segments: of those that end before a `/`
// or with the text, the last one that is held. None of more segments than a route may have is held.
fn path_holder(leases: &Leases, text: &[u8]) -> Option<Holding>
    requires { AreHeld leases.now.holder }
    ensures { result ≡ path_holder (map.entries leases.now.holder) text.now }
{
    let mut found = None;
    let mut segments = 0;
    for (end, byte) in text.iter().enumerate() {
        if *byte == b'/' {
            found = leases.holder_of(Bucket::Route, &text[..end]).or(found);
            segments += 1;
            if segments == ROUTE_SEGMENTS {
                return found;
            }
        }
    }
    leases.holder_of(Bucket::Route, text).or(found)
}

fn found_class(cell: Option<u16>) -> Class
    ensures { result ≡ found_class cell }
{
    match cell {
        Some(id) => Class::Cell { id },
        None => Class::NotFound,
    }
}

/// The class of a question: the first cell of the configuration; the cell with an id, if the
/// configuration has it; the cell whose prefix begins a text; the cell that holds a key; or the cell
/// that holds the longest route that a text is, or begins with up to a `/`. It takes no memory.
pub fn classify(leases: &Leases, registry: &Registry, question: &Question) -> Class
    requires { AreHeld leases.now.holder }
    ensures { result ≡ class_of registry.now leases.now.holder question.now }
{
    match question {
        Question::First => found_class(Some(registry.first_cell())),
        Question::Cell { id } => match registry.cell(*id) {
            Some(cell) => Class::Cell { id: cell.id },
            None => Class::UnknownCell,
        },
        Question::Session { text } => found_class(registry.by_prefix(text.as_slice())),
        Question::Claim { key } => found_class(leases.holder(key).map(|holding| holding.cell)),
        Question::Path { text } => {
            found_class(path_holder(leases, text.as_slice()).map(|holding| holding.cell))
        }
    }
}
